// Rows of the processor table.
#![tactic(auto)]

pub mod processor_row;
