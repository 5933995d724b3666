// RAM cells: search, reading, writing, ascending addresses.
#![tactic(auto)]

pub mod addresses;
pub mod ram;
pub mod ram_mut;
