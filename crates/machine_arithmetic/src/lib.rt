// The instructions of arithmetic and of bits.
#![tactic(auto)]

pub mod arithmetic;
pub mod bitwise;
