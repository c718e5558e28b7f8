// The fault step of a state that keeps its rules.
#![tactic(auto)]

ghost use Rattle.std.specs.Prelude.{◌≡◌, ◌+◌, ◌*◌, ◌≤◌, ◌<◌, length, take, drop};
ghost use Rattle.state.specs.declared.types.Config.{Config};
ghost use Rattle.step_effects.specs.Dispatch.{step_room, Wrote};
ghost use Rattle.step_rules.specs.Moved.{RespondersLent, FaultsLent, seen_by_responses, seen_by_faults, FaultResponds, FaultMoves};

use state::types::LentConfig;
use step_effects::faults::Event;
use step_effects::{dispatch, faults};
use step_rules::types;
use step_rules::types::{Answer, Responding};

// Writes the command of row k, whose `count` argument bytes stand from place 16 k on.
fn respond(out: &mut [u8], source: u16, id: u16, args: &[u8], k: usize, count: u8) -> u16
    requires { (step_room ≤ length out.old) × (k < 32) × (k * 16 + count ≤ length args.now) }
    ensures { Wrote source id (take count (drop (k * 16) args.now)) out.old result out.new }
{
    let from = k * 16;
    let end = from + count as usize;
    dispatch::write(out, source, id, &args[from..end])
}

// What a fault comes to before anything is sent on: a response that is to be sent on is answered 10 here, with its destination
// and its bytes, and its row by its place. It goes straight to the router, even for a protected id; it is routed, so its route is
// there without a test. What is found is said of every configuration with these columns.
// internal: for the steps that send a response on, each in its own way.
pub fn responding(config: &LentConfig<'_>, states: &[u8; 32], fault: u16) -> Responding
    requires { RespondersLent config.now × (length states.now ≡ 32) }
    ensures { (other : Config) → length other.args ≡ 512
        → FaultResponds (seen_by_responses config.now other) states.now fault result }
{
    let LentConfig {
        numbers,
        routeids,
        dests,
        faultids,
        responses,
        argcounts,
        ..
    } = *config;
    let Some(k) = state_lookup::place(faultids, numbers.nrows, state_lookup::ROWS, fault) else {
        return types::responding_of(types::bare(34), None);
    };
    if states[k] != faults::ENABLED {
        return types::responding_of(types::bare(13), None);
    }
    let id = responses[k];
    let at = state_lookup::place(routeids, numbers.nroutes, state_lookup::ROUTES, id).unwrap();
    let answer = types::dispatched(id, dests[at], 5 + argcounts[k] as u16);
    types::responding_of(answer, Some(k))
}

// The step, with room: what was found, and a response that is sent on is written and latches its row. The columns are lent, and
// so are the fault states; arm record and counters are for the caller. What it does is said of every configuration with these
// columns.
// internal: for the steps that judge their state, and for a loop that judges its state once.
pub fn inner_fault(
    config: &LentConfig<'_>,
    states: &mut [u8; 32],
    fault: u16,
    out: &mut [u8],
) -> Answer
    requires { FaultsLent config.now × (length states.old ≡ 32) × (step_room ≤ length out.old) }
    ensures { (other : Config)
        → FaultMoves (seen_by_faults config.now other) states.old fault out.old result states.new out.new }
{
    let Responding { answer, row } = responding(config, states, fault);
    let Some(k) = row else {
        return answer;
    };
    let LentConfig {
        numbers,
        latching,
        argcounts,
        args,
        ..
    } = *config;
    let count = argcounts[k];
    let latches = latching[k];
    respond(out, numbers.settings.fault, answer.id, args, k, count);
    states[k] = faults::row_after(latches, faults::ENABLED, Event::Fault);
    answer
}
