// The calls over numbers and slices, by those of the machine and of replay.
#![tactic(auto)]

pub mod given;
pub mod helper_variables;
pub mod open;
pub mod processor_row;
pub mod replay_call;
pub mod rows;
pub mod run;
pub mod step;
pub mod thin;
pub mod trace;
