// What crosses the C boundary: the structs that C passes by value, what each call answers, and the conversions between a run
// and its saved form.
#![tactic(auto)]

pub mod types;
