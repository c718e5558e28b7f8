// Replay: an image and a recording of events in bytes in, the answers in bytes out.
#![tactic(auto)]

pub mod replay;
