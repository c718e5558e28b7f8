// The configuration image: loading it into a state, or the refusal and the place of its first bad record.
#![tactic(auto)]

pub mod load;
pub mod types;
