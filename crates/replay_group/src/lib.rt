// RAM's records, for one group of addresses after the other.
#![tactic(auto)]

pub mod group;
pub mod write;
