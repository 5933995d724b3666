// Place B, and what the instruction decides.
#![tactic(auto)]

pub mod decide;
pub mod handed;
pub mod place_b;
