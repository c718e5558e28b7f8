// Replay of a recording: the state is judged once, and the walk over the events does not judge it again.
ghost use Rattle.std.specs.Prelude.{◌≡◌, length};
ghost use Rattle.state.specs.Tables.{config_of_lent, run_from};
ghost use Rattle.step_effects.specs.Dispatch.{over};
ghost use Rattle.replay_rules.specs.Replay.{Resumes, piece_of, piece_bytes, replay_of, replay_bytes};

use replay_rules::types;
use replay_rules::types::{Piece, Reached, Replayed, reached_at};
use replay_walk::inner_replay;
use state::types::{Config, LentConfig, Run, Standing, no_counts};

// A piece of a recording behind any state: 20 where the state breaks its rules, which is judged once. A recording may come in
// pieces: what was not read of one stands before the next, and what one leaves goes into the next. Columns and fault states are
// lent.
pub fn lent_resume(
    config: &LentConfig<'_>,
    standing: Standing,
    states: &mut [u8; 32],
    recording: &[u8],
    out: &mut [u8],
) -> Reached
    ensures { Resumes (config_of_lent config.now) (run_from standing states.old) recording.now out.old result states.new out.new }
{
    if !state_check::lent_keeps(config, standing, states) {
        return reached_at(standing, 20, 0, 0, 0);
    }
    inner_replay(config, standing, states, recording, out)
}

// The same of a configuration and a run by value.
pub fn resume(config: Config, run: Run, recording: &[u8], out: &mut [u8]) -> Piece
    ensures told { result ≡ piece_of config run recording.now (length out.old) }
    ensures output { out.new ≡ over (piece_bytes config run recording.now (length out.old)) out.old }
{
    let mut states = run.states;
    let r = lent_resume(&config.lent(), run.standing, &mut states, recording, out);
    types::piece_of(r, states)
}

// A whole recording under an image: bytes in, answers out. The load's refusal, and nothing written, where the image is refused.
pub fn replay(image: &[u8], recording: &[u8], out: &mut [u8]) -> Replayed
    ensures told { result ≡ replay_of image.now recording.now (length out.old) }
    ensures output { out.new
        ≡ over (replay_bytes image.now recording.now (length out.old)) out.old }
{
    let loaded = image_load::load::load(image);
    if loaded.answer != 0 {
        return Replayed {
            load: loaded.answer,
            offset: loaded.offset,
            stop: 0,
            read: 0,
            count: 0,
            wrote: 0,
            counts: no_counts(),
        };
    }
    let config = loaded.config;
    let run = loaded.run;
    let mut states = run.states;
    let reached = inner_replay(&config.lent(), run.standing, &mut states, recording, out);
    let last = reached.standing.counts;
    Replayed {
        load: 0,
        offset: 0,
        stop: reached.stop,
        read: reached.read,
        count: reached.count,
        wrote: reached.wrote,
        counts: last,
    }
}
