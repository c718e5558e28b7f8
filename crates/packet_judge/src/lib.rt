// The judge of a telecommand packet, the parts of one that it accepts, and the enquiry for its argument part.
#![tactic(auto)]

pub mod enquiry;
pub mod form;
pub mod judge;
pub mod parts;
