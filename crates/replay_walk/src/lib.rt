// The walk over a recording's events behind a state that keeps its rules: each event costs one inner step, and no judge of the state.
#![tactic(auto)]

ghost use Rattle.std.specs.Prelude.{◌≡◌};
ghost use Rattle.state.specs.Tables.{config_of_lent, run_from};
ghost use Rattle.state.specs.Sized.{LentState};
ghost use Rattle.replay_rules.specs.Recording.{number_of};
ghost use Rattle.replay_rules.specs.Replay.{Replays, reached_at};

use image_rules::record;
use replay_rules::recording;
use replay_rules::recording::{LentEvent, Stop};
use replay_rules::types::{Reached, reached_at};
use state::types::{LentConfig, Standing};
use step_effects::counts;
use step_fault::inner_fault;
use step_packet::inner_packet;

// The walk stops where it is, and why.
fn stopped(at: Reached, stop: Stop) -> Reached
    ensures { result ≡ reached_at at.standing (number_of stop) at.read at.count at.wrote }
{
    reached_at(at.standing, stop.into(), at.read, at.count, at.wrote)
}

// A recording behind a state that keeps its rules, event by event, until a record is bad or less than `EVENT_ROOM` bytes of the output
// are left. Columns and fault states are lent; the standing goes by value and is worked out beside each step. Each arm asks for its
// room and ends with its own turn of the cursors, so that the arms never join: with the room asked for before the arms a tick took 11
// instructions more, and a packet 10.
// internal: for `lent_resume` and `replay`, which have judged the state.
pub fn inner_replay(
    config: &LentConfig<'_>,
    standing: Standing,
    states: &mut [u8; 32],
    recording: &[u8],
    out: &mut [u8],
) -> Reached
    requires { LentState (config_of_lent config.now) (run_from standing states.old) }
    ensures { Replays (config_of_lent config.now) (run_from standing states.old) recording.now out.old result states.new out.new }
{
    let mut at = reached_at(standing, 0, 0, 0, 0);
    while at.read < recording.len() {
        let Some(found) = record::found_at(recording, at.read) else {
            return stopped(at, Stop::CutShort);
        };
        let from = at.read + 4;
        match recording::event(found.kind, &recording[from..found.end]) {
            Err(stop) => return stopped(at, stop),
            Ok(LentEvent::Packet(packet)) => {
                if out.len() - at.wrote < recording::EVENT_ROOM {
                    return stopped(at, Stop::OutputFull);
                }
                let place = at.wrote + recording::HEAD_SIZE;
                let behind = &mut out[place..];
                let sent = inner_packet(config, at.standing.arm, states, packet, behind);
                let answer = sent.answer;
                at.standing.arm = sent.arm;
                at.standing.counts = counts::after_packet(
                    at.standing.counts,
                    answer.answer,
                    sent.reset,
                );
                at.wrote = recording::put_numbers(out, at.wrote, answer);
                at.read = found.end;
                at.count += 1;
            }
            Ok(LentEvent::Tick) => {
                if out.len() - at.wrote < recording::EVENT_ROOM {
                    return stopped(at, Stop::OutputFull);
                }
                let ticked = step_arm::tick_of(at.standing.arm);
                at.standing.arm = ticked.arm;
                let answer = step_rules::types::bare(ticked.answer);
                at.wrote = recording::put_numbers(out, at.wrote, answer);
                at.read = found.end;
                at.count += 1;
            }
            Ok(LentEvent::Fault(fault)) => {
                if out.len() - at.wrote < recording::EVENT_ROOM {
                    return stopped(at, Stop::OutputFull);
                }
                let place = at.wrote + recording::HEAD_SIZE;
                let answer = inner_fault(config, states, fault, &mut out[place..]);
                at.standing.counts = counts::after_fault(at.standing.counts, answer.answer);
                at.wrote = recording::put_numbers(out, at.wrote, answer);
                at.read = found.end;
                at.count += 1;
            }
        }
    }
    at
}
