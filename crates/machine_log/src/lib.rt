// The records of a step, as bytes, and how long a record is.
#![tactic(auto)]

pub mod calls;
pub mod kinds;
