// The C boundary: each entry point of the path under a plain name, on structs that C can pass by value. The header is
// include/tamezohishu.h.
#![tactic(auto)]

pub mod calls;
