// Place D, and what an effect makes of the machine.
#![tactic(auto)]

pub mod answer;
pub mod limits;
pub mod perform;
pub mod settle;
