// Effects, and the instructions of stack, control, memory, input and output.
#![tactic(auto)]

pub mod control;
pub mod effect;
pub mod input_output;
pub mod memory;
pub mod stack;
