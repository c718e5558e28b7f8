// What the three steps come to: the definitions and theorems are in specs/; the numbers and the run that a step hands back.
#![tactic(auto)]

pub mod types;
