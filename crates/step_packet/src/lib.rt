// The packet step of a state that keeps its rules. The columns that it looks at are lent, and so are the fault states, which
// change where they stand; the counters are for the caller. Every way out of what is decided returns by itself. That the states and
// the columns keep their rules is asked in each contract and is no invariant of a type: C lends any bytes.
#![tactic(auto)]

ghost use Rattle.std.specs.Prelude.{◌≤◌, length, take, ◌≡◌};
ghost use Rattle.state.specs.declared.types.Config.{Config};
ghost use Rattle.state.specs.Lookup.{Column};
ghost use Rattle.step_effects.specs.Dispatch.{step_room};
ghost use Rattle.step_effects.specs.FaultStates.{number_of};
ghost use Rattle.step_answers.specs.Own.{rule_of};
ghost use Rattle.step_answers.specs.Answers.{blocked};
ghost use Rattle.step_rules.specs.Moved.{StatesLent, PacketsLent, seen_by_packets, quietly, rejected_by, OwnMoves, RowMoves, PacketDecided, PacketMoves};

use packet_judge::{enquiry, judge};
use state::types::{Arm, LentConfig};
use step_answers::own;
use step_answers::own::Own;
use step_arm::after_packet;
use step_effects::faults::Event;
use step_effects::{dispatch, faults};
use step_rules::types;
use step_rules::types::{Decision, Moved};

// A rejected packet: the arm record stays.
fn rejected(arm: Arm, n: u8) -> Moved
    ensures { result ≡ rejected_by arm n }
{
    types::moved_of(arm, false, types::bare(n))
}

// An accepted packet that is not sent on.
fn quiet(arm: Arm, n: u8, id: u16, args: &[u8], reset: bool) -> Moved
    ensures { result ≡ quietly n id args.now reset }
{
    types::moved_of(after_packet(arm, n, args), reset, types::named(n, id))
}

// Protected and unarmed.
fn is_blocked(ids: &[u16; 32], n: usize, armed: bool, id: u16) -> bool
    requires { Column 32 ids.now n }
    ensures { result ≡ blocked (take n ids.now) armed id }
{
    !armed && state_lookup::holds(ids, n, state_lookup::ROWS, id)
}

// An own command that acts on the row of the fault id in its arguments, by an event.
fn row_step(
    config: &LentConfig<'_>,
    arm: Arm,
    states: &mut [u8; 32],
    event: Event,
    id: u16,
    args: &[u8],
) -> Moved
    requires { Column 32 config.now.faultids.now config.now.numbers.nrows × StatesLent states.old }
    ensures { RowMoves (take config.now.numbers.nrows config.now.faultids.now) (number_of event) id args.now states.old result states.new }
{
    let LentConfig {
        numbers,
        faultids,
        ..
    } = *config;
    let wanted = own::fault_arg(args);
    let Some(at) = state_lookup::place(faultids, numbers.nrows, state_lookup::ROWS, wanted) else {
        return quiet(arm, 32, id, args, false);
    };
    states[at] = faults::next(states[at], event);
    quiet(arm, 12, id, args, false)
}

// An own command, which takes `wanted` argument bytes.
fn own_step(
    config: &LentConfig<'_>,
    arm: Arm,
    states: &mut [u8; 32],
    command: Own,
    wanted: usize,
    id: u16,
    args: &[u8],
) -> Moved
    requires { Column 32 config.now.faultids.now config.now.numbers.nrows × StatesLent states.old × (wanted ≡ (rule_of command).wanted) }
    ensures { OwnMoves (take config.now.numbers.nrows config.now.faultids.now) command id args.now states.old result states.new }
{
    if args.len() != wanted {
        return quiet(arm, 31, id, args, false);
    }
    match command {
        Own::Arm => quiet(arm, 11, id, args, false),
        Own::ResetCounters => quiet(arm, 12, id, args, true),
        Own::NoOp | Own::NoOpWithArgument => quiet(arm, 12, id, args, false),
        Own::Enable => row_step(config, arm, states, Event::Enable, id, args),
        Own::Disable => row_step(config, arm, states, Event::Disable, id, args),
        Own::Clear => row_step(config, arm, states, Event::Clear, id, args),
        Own::ClearAll => {
            faults::clear_all(states);
            quiet(arm, 12, id, args, false)
        }
    }
}

// What a packet comes to before anything is sent on, and all that it changes: a command that is to be sent on is answered 10
// here, with its destination and its bytes, and the arm record behind it. The arguments are handed on as the part of the packet
// from byte 10. What it does is said of every configuration with these columns: of the fault rows it sees the ids alone.
// internal: for the steps that send a command on, each in its own way.
pub fn decided(config: &LentConfig<'_>, arm: Arm, states: &mut [u8; 32], packet: &[u8]) -> Decision
    requires { PacketsLent config.now × StatesLent states.old }
    ensures { (other : Config) → PacketDecided (seen_by_packets config.now other) arm states.old packet.now result states.new }
{
    if let Err(r) = judge::refusal(packet) {
        return types::decision_of(rejected(arm, u8::from(r)), false);
    }
    let id = judge::command_id(packet);
    let args = enquiry::accepted_part(packet);
    let LentConfig {
        numbers,
        routeids,
        dests,
        protected,
        ..
    } = *config;
    if is_blocked(protected, numbers.nprotected, arm.armed, id) {
        return types::decision_of(quiet(arm, 30, id, args, false), false);
    }
    let selection = own::selected(numbers.settings.base, id);
    if let Some((command, wanted)) = selection {
        let m = own_step(config, arm, states, command, wanted, id, args);
        return types::decision_of(m, false);
    }
    let Some(at) = state_lookup::place(routeids, numbers.nroutes, state_lookup::ROUTES, id) else {
        return types::decision_of(quiet(arm, 33, id, args, false), false);
    };
    let answer = types::dispatched(id, dests[at], 5 + args.len() as u16);
    types::decision_of(
        types::moved_of(after_packet(arm, 10, args), false, answer),
        true,
    )
}

// The step, with room in the output: what was decided, and a command that is sent on is written.
// internal: for the steps that judge their state, and for a loop that judges its state once.
pub fn inner_packet(
    config: &LentConfig<'_>,
    arm: Arm,
    states: &mut [u8; 32],
    packet: &[u8],
    out: &mut [u8],
) -> Moved
    requires { PacketsLent config.now × StatesLent states.old × (step_room ≤ length out.old) }
    ensures { (other : Config)
        → PacketMoves (seen_by_packets config.now other) arm states.old packet.now out.old result states.new out.new }
{
    let d = decided(config, arm, states, packet);
    let m = d.moved;
    if d.sends {
        let id = judge::command_id(packet);
        let args = enquiry::accepted_part(packet);
        dispatch::write(out, config.numbers.settings.ground_source, id, args);
    }
    m
}
