// Words modulo p = 2^64 - 2^32 + 1, and extension words, which are polynomials modulo X^3 - X + 1 over them.
#![tactic(auto)]

pub mod base;
pub mod extension;
