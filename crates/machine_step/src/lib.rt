// A step behind place A, with its records or without.
#![tactic(auto)]

pub mod advance;
pub mod records;
