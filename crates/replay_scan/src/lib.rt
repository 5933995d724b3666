// A record read where it stands, and the log without RAM's words.
#![tactic(auto)]

pub mod counts;
pub mod fault;
pub mod record;
pub mod records;
pub mod scan;
