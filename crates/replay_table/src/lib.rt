// Cells brought into others, and a group's table of written cells.
#![tactic(auto)]

pub mod cells;
pub mod merge;
pub mod table;
