// The rules of the packet builder: the definitions and theorems are in specs/; what the builder hands back.
#![tactic(auto)]

pub mod types;
