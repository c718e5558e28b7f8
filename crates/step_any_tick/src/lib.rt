// The tick step on any state.
#![tactic(auto)]

ghost use Rattle.std.specs.Prelude.{◌≡◌};
ghost use Rattle.state.specs.Tables.{config_of_lent, run_from};
ghost use Rattle.step_rules.specs.Step.{tick_step_of};
ghost use Rattle.step_rules.specs.Makers.{step_left};

use state::types::{Config, LentConfig, Run, Standing, with_arm};
use step_rules::types;
use step_rules::types::{Left, Stepped};

// The step of any state: 20, then the tick, which moves the arm record alone. Columns and fault states are lent.
pub fn lent_tick(config: &LentConfig<'_>, standing: Standing, states: &[u8; 32]) -> Left
    ensures { step_left result states.now
        ≡ tick_step_of (config_of_lent config.now) (run_from standing states.now) }
{
    if !state_check::lent_keeps(config, standing, states) {
        return types::kept(standing, 20);
    }
    let ticked = step_arm::tick_of(standing.arm);
    let left = with_arm(standing, ticked.arm);
    types::left_of(left, types::bare(ticked.answer))
}

// The same of a configuration and a run by value.
pub fn step_tick(config: Config, run: Run) -> Stepped
    ensures { result ≡ tick_step_of config run }
{
    let states = run.states;
    let l = lent_tick(&config.lent(), run.standing, &states);
    types::stepped_of(l, states)
}
