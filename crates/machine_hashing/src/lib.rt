// The hashing instructions, and those that do many in one.
#![tactic(auto)]

pub mod hashing;
pub mod many_in_one;
