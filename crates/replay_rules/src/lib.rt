// What a recording of events and the replies to it are in bytes, and what a replay comes to: definitions and theorems, and the
// functions on one record and one reply.
#![tactic(auto)]

pub mod recording;
pub mod types;
