// What a replay hands back, and the makers of it.
ghost use Rattle.std.specs.Prelude.{◌≡◌};
ghost use Rattle.replay_rules.specs.Replay.{reached_at, piece_left};

use state::types::{Counts, Run, Standing, run_of};

// What a piece of a recording came to, and the run that it left. `Reached` and `Portion` of export_rules differ from it in the first
// field alone, and stay structs of their own: C takes no struct with a type parameter, and knows that field of `Portion` by its name.
#[repr(C)]
#[derive(Clone, Copy)]
pub struct Piece {
    pub run: Run,
    // 0 all of it was read; the number of a `Stop`; 20 the state breaks its rules. A number, since C takes it so
    pub stop: u8,
    // bytes of the recording that were read, events that were answered, bytes of the output that were written
    pub read: usize,
    pub count: usize,
    pub wrote: usize,
}

// The same where the fault states are lent: they are left where they stand.
#[derive(Clone, Copy)]
pub struct Reached {
    pub standing: Standing,
    pub stop: u8,
    pub read: usize,
    pub count: usize,
    pub wrote: usize,
}

// What a recording under an image came to.
#[repr(C)]
#[derive(Clone, Copy)]
pub struct Replayed {
    // the load's answer and offset
    pub load: u8,
    pub offset: usize,
    // as in `Piece`
    pub stop: u8,
    pub read: usize,
    pub count: usize,
    pub wrote: usize,
    // the seven counters behind the last event that was answered
    pub counts: Counts,
}

// Where a replay stopped, and why; the fault states are left where they stand.
pub fn reached_at(standing: Standing, stop: u8, read: usize, count: usize, wrote: usize) -> Reached
    ensures { result ≡ reached_at standing stop read count wrote }
{
    Reached {
        standing,
        stop,
        read,
        count,
        wrote,
    }
}

// That piece, with the fault states that it left.
pub fn piece_of(r: Reached, states: [u8; 32]) -> Piece
    ensures { result ≡ piece_left r states }
{
    Piece {
        run: run_of(r.standing, states),
        stop: r.stop,
        read: r.read,
        count: r.count,
        wrote: r.wrote,
    }
}
