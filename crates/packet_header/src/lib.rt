// The primary header of a packet: its bit fields, its reader and its writer.
#![tactic(auto)]

pub mod bits;
pub mod reader;
pub mod types;
pub mod writer;
