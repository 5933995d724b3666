// Replay: the call.
#![tactic(auto)]

pub mod call;
pub mod place_a;
pub mod refusal;
