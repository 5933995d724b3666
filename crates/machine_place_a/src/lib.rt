// Place A: what is checked of what a call is handed.
#![tactic(auto)]

pub mod checks;
