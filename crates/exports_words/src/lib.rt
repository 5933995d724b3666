// Registers and answers as words.
#![tactic(auto)]

pub mod fits;
pub mod registers;
pub mod report;
