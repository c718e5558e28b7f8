// The answers to an accepted packet and to a fault, as definitions and laws, and those of the path's own commands.
#![tactic(auto)]

pub mod own;
