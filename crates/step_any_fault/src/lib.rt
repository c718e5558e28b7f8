// The fault step on any state. `inner_fault` is the step of a state that keeps its rules.
#![tactic(auto)]

ghost use Rattle.std.specs.Prelude.{◌≡◌, length};
ghost use Rattle.state.specs.Tables.{tables_of, config_of_lent, run_from};
ghost use Rattle.step_rules.specs.Step.{fault_output, fault_step_of};
ghost use Rattle.step_rules.specs.LentSteps.{FaultLeaves};

use state::types::{Config, LentConfig, Run, Standing, with_counts};
use step_effects::{counts, dispatch};
pub use step_fault::inner_fault;
use step_rules::types;
use step_rules::types::{Left, Stepped};

// The step of any state, any fault number and any output: 20, 21, then the fault. Columns and fault states are lent, as to
// `lent_packet`.
pub fn lent_fault(
    config: &LentConfig<'_>,
    standing: Standing,
    states: &mut [u8; 32],
    fault: u16,
    out: &mut [u8],
) -> Left
    ensures { FaultLeaves (config_of_lent config.now) (run_from standing states.old) fault out.old result states.new out.new }
{
    if !state_check::lent_keeps(config, standing, states) {
        return types::kept(standing, 20);
    }
    if out.len() < dispatch::STEP_ROOM {
        return types::kept(standing, 21);
    }
    let answer = inner_fault(config, states, fault, out);
    let counted = counts::after_fault(standing.counts, answer.answer);
    types::left_of(with_counts(standing, counted), answer)
}

// The same of a configuration and a run by value.
pub fn step_fault(config: Config, run: Run, fault: u16, out: &mut [u8]) -> Stepped
    ensures step { result ≡ fault_step_of config run fault (length out.old) }
    ensures output { out.new ≡ fault_output (tables_of config) result.answer.answer fault out.old }
{
    let mut states = run.states;
    let l = lent_fault(&config.lent(), run.standing, &mut states, fault, out);
    types::stepped_of(l, states)
}
