// Choices between numbers, for all layers.
#![tactic(auto)]

pub mod numbers;
