// The calls that take no step, with place A before each: open, helper variables, the row of the processor table.
#![tactic(auto)]

pub mod helper_variables;
pub mod open;
pub mod processor_row;
