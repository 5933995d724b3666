// The table of instructions, and the op stack.
#![tactic(auto)]

pub mod few;
pub mod instruction;
pub mod op_stack;
