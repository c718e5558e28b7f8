// The state of the path: a Config, which no step changes, and a Run, which each step hands back; the rules of its rows.
#![tactic(auto)]

pub mod lent;
pub mod rules;
pub mod types;
