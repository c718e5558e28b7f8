// What a step hands back, and the makers of it: nobody else writes such a struct out.
ghost use Rattle.std.specs.Prelude.{◌≡◌};
ghost use Rattle.step_rules.specs.Makers.{bare_answer, named_answer, dispatched_answer, moved_from, decision_from, responding_from, left_from, left_as, step_left};

use state::types::{Arm, Run, Standing, run_of};

// The four numbers of an answer: the answer, the command id, the destination and the bytes written. It crosses the C boundary, and
// document 01 numbers the answers, so they are no enum.
#[repr(C)]
#[derive(Clone, Copy)]
pub struct Answer {
    pub answer: u8,
    pub id: u16,
    pub dest: u8,
    pub written: u16,
}

// The answer, and what the step left of the run.
#[repr(C)]
#[derive(Clone, Copy)]
pub struct Stepped {
    pub run: Run,
    pub answer: Answer,
}

// What a packet step hands back to which the fault states are lent: the arm record that it leaves, whether it was a reset, and
// the answer. The counters are for the caller.
#[derive(Clone, Copy)]
pub struct Moved {
    pub arm: Arm,
    pub reset: bool,
    pub answer: Answer,
}

// What a packet comes to before anything is sent on: what the step hands back, and whether its command is to be sent on. What is
// handed back stands either way, so the flag makes no Option of it (`PacketDecided` ties it to the answer 10).
#[derive(Clone, Copy)]
pub struct Decision {
    pub moved: Moved,
    pub sends: bool,
}

// What a fault comes to before anything is sent on: the answer, and the place of the row whose response is to be sent, if one is.
#[derive(Clone, Copy)]
pub struct Responding {
    pub answer: Answer,
    pub row: Option<usize>,
}

// What a step on any state leaves, where the fault states are lent and left where they stand.
#[derive(Clone, Copy)]
pub struct Left {
    pub standing: Standing,
    pub answer: Answer,
}

// An answer with no id, no destination and nothing written.
pub fn bare(n: u8) -> Answer
    ensures { result ≡ bare_answer n }
{
    named(n, 0)
}

// An answer with its id, no destination and nothing written.
pub fn named(n: u8, id: u16) -> Answer
    ensures { result ≡ named_answer n id }
{
    Answer {
        answer: n,
        id,
        dest: 0,
        written: 0,
    }
}

// A command dispatched.
pub fn dispatched(id: u16, dest: u8, written: u16) -> Answer
    ensures { result ≡ dispatched_answer id dest written }
{
    Answer {
        answer: 10,
        id,
        dest,
        written,
    }
}

// What an inner step of a packet hands back.
pub fn moved_of(arm: Arm, reset: bool, answer: Answer) -> Moved
    ensures { result ≡ moved_from arm reset answer }
{
    Moved { arm, reset, answer }
}

// What a packet comes to before anything is sent on.
pub fn decision_of(moved: Moved, sends: bool) -> Decision
    ensures { result ≡ decision_from moved sends }
{
    Decision { moved, sends }
}

// What a fault comes to before anything is sent on.
pub fn responding_of(answer: Answer, row: Option<usize>) -> Responding
    ensures { result ≡ responding_from answer row }
{
    Responding { answer, row }
}

// What a step leaves.
pub fn left_of(standing: Standing, answer: Answer) -> Left
    ensures { result ≡ left_from standing answer }
{
    Left { standing, answer }
}

// That step, with the fault states that it left.
pub fn stepped_of(l: Left, states: [u8; 32]) -> Stepped
    ensures { result ≡ step_left l states }
{
    let answer = l.answer;
    Stepped {
        run: run_of(l.standing, states),
        answer,
    }
}

// An answer that changes nothing; the fault states, which are lent, are left where they stand.
pub fn kept(standing: Standing, n: u8) -> Left
    ensures { result ≡ left_as standing n }
{
    left_of(standing, bare(n))
}
