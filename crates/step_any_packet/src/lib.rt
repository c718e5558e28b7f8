// The packet step on any state. `inner_packet` is the step of a state that keeps its rules.
#![tactic(auto)]

ghost use Rattle.std.specs.Prelude.{◌≡◌, length};
ghost use Rattle.state.specs.Tables.{tables_of, config_of_lent, run_from};
ghost use Rattle.step_rules.specs.Step.{packet_output, packet_step_of};
ghost use Rattle.step_rules.specs.LentSteps.{PacketLeaves};

use state::types::{Config, LentConfig, Run, Standing, with_arm, with_counts};
use step_effects::{counts, dispatch};
pub use step_packet::inner_packet;
use step_rules::types;
use step_rules::types::{Left, Stepped};

// The step of any state, any packet and any output: 20, 21, then the packet. Columns and fault states are lent, so nothing of the
// configuration is copied; the fault states change where they stand.
pub fn lent_packet(
    config: &LentConfig<'_>,
    standing: Standing,
    states: &mut [u8; 32],
    packet: &[u8],
    out: &mut [u8],
) -> Left
    ensures { PacketLeaves (config_of_lent config.now) (run_from standing states.old) packet.now out.old result states.new out.new }
{
    if !state_check::lent_keeps(config, standing, states) {
        return types::kept(standing, 20);
    }
    if out.len() < dispatch::STEP_ROOM {
        return types::kept(standing, 21);
    }
    let m = inner_packet(config, standing.arm, states, packet, out);
    let answer = m.answer;
    let counted = counts::after_packet(standing.counts, answer.answer, m.reset);
    let left = with_arm(with_counts(standing, counted), m.arm);
    types::left_of(left, answer)
}

// The same of a configuration and a run by value.
pub fn step_packet(config: Config, run: Run, packet: &[u8], out: &mut [u8]) -> Stepped
    ensures step { result ≡ packet_step_of config run packet.now (length out.old) }
    ensures output { out.new ≡ packet_output (tables_of config) result.answer.answer packet.now out.old }
{
    let mut states = run.states;
    let l = lent_packet(&config.lent(), run.standing, &mut states, packet, out);
    types::stepped_of(l, states)
}
