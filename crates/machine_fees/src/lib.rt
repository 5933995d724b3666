// Fee tables: what is wrong with one, and the prices of the opcodes.
#![tactic(auto)]

pub mod fee_table;
