// The records of a configuration image, what refuses one, and which images are good: the frame of a record and the refusals; the
// rest is in specs/.
#![tactic(auto)]

pub mod record;
pub mod refusal;
