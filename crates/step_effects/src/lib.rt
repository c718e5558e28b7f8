// What an answer does to the counters, the fault states and the output. (The arm record is `step_arm`'s.)
#![tactic(auto)]

pub mod counts;
pub mod dispatch;
pub mod faults;
