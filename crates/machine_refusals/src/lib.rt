// A refusal as document 01's number and the words that it carries.
#![tactic(auto)]

pub mod refusals;
