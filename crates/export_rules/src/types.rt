// What crosses the C boundary where the path's own type can't. A caller may hand over a byte that is no bool, so the arm record
// crosses with a number in its place. Columns and fault states are lent and cross as pointers; the rest goes by value.
ghost use Rattle.std.specs.Prelude.{◌≡◌};
ghost use Rattle.export_rules.specs.Boundary.{standing_inward, standing_outward, outward, left_outward, reached_outward, refused_left, refused_reached};

use replay_rules::types::Reached;
use state::types::{Arm, Config, Counts, Run, Standing};
use step_rules::types::{Answer, Left};

// A standing as C keeps it: armed is 0 or 1, and a state with any other number breaks its rules.
#[repr(C)]
#[derive(Clone, Copy)]
pub struct SavedStanding {
    pub armed: u8,
    pub ticks: u16,
    pub counts: Counts,
}

// A run as C keeps it.
#[repr(C)]
#[derive(Clone, Copy)]
pub struct Saved {
    pub standing: SavedStanding,
    pub states: [u8; 32],
}

// A part of a packet: where it begins, and how many bytes it has.
#[repr(C)]
#[derive(Clone, Copy)]
pub struct Part {
    pub offset: usize,
    pub length: usize,
}

// What loading hands back.
#[repr(C)]
#[derive(Clone, Copy)]
pub struct Loading {
    pub answer: u8,
    pub offset: usize,
    pub config: Config,
    pub run: Saved,
}

// What a step hands back; the fault states are left where they were lent. It and `Portion` are structs of their own beside `Left`
// and `Reached`, since C takes no struct with a type parameter.
#[repr(C)]
#[derive(Clone, Copy)]
pub struct Handed {
    pub standing: SavedStanding,
    pub answer: Answer,
}

// What a piece of a recording hands back, the fault states as in `Handed`.
#[repr(C)]
#[derive(Clone, Copy)]
pub struct Portion {
    pub standing: SavedStanding,
    pub stop: u8,
    pub read: usize,
    pub count: usize,
    pub wrote: usize,
}

// The standing that C's stands for. This conversion and the next one alone know both forms.
impl From<SavedStanding> for Standing {
    ghost from_gives = { λ saved standing. standing ≡ standing_inward saved };

    fn from(saved: SavedStanding) -> Standing {
        Standing {
            arm: Arm {
                armed: saved.armed == 1,
                ticks: saved.ticks,
            },
            counts: saved.counts,
        }
    }
}

// A standing to be saved.
impl From<Standing> for SavedStanding {
    ghost from_gives = { λ standing saved. saved ≡ standing_outward standing };

    fn from(standing: Standing) -> SavedStanding {
        SavedStanding {
            armed: standing.arm.armed as u8,
            ticks: standing.arm.ticks,
            counts: standing.counts,
        }
    }
}

// A run to be saved.
impl From<Run> for Saved {
    ghost from_gives = { λ run saved. saved ≡ outward run };

    fn from(run: Run) -> Saved {
        let states = run.states;
        Saved {
            standing: run.standing.into(),
            states,
        }
    }
}

// What a step left, to be handed out.
impl From<Left> for Handed {
    ghost from_gives = { λ left handed. handed ≡ left_outward left };

    fn from(left: Left) -> Handed {
        Handed {
            standing: left.standing.into(),
            answer: left.answer,
        }
    }
}

// An armed number that is neither 0 nor 1: 20, and all as it came.
pub fn step_refused(standing: SavedStanding) -> Handed
    ensures { result ≡ refused_left standing }
{
    Handed {
        standing,
        answer: step_rules::types::bare(20),
    }
}

// What a piece of a recording came to, to be handed out.
impl From<Reached> for Portion {
    ghost from_gives = { λ reached portion. portion ≡ reached_outward reached };

    fn from(reached: Reached) -> Portion {
        Portion {
            standing: reached.standing.into(),
            stop: reached.stop,
            read: reached.read,
            count: reached.count,
            wrote: reached.wrote,
        }
    }
}

// An armed number that is neither 0 nor 1: 20, nothing read, and all as it came.
pub fn piece_refused(standing: SavedStanding) -> Portion
    ensures { result ≡ refused_reached standing }
{
    Portion {
        standing,
        stop: 20,
        read: 0,
        count: 0,
        wrote: 0,
    }
}
