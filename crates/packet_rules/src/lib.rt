// The rules of a telecommand packet: the definitions and theorems are in specs/; what the judge hands back, and which answers
// are its refusals.
#![tactic(auto)]

pub mod rejection;
pub mod types;
