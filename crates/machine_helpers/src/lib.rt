// The helper variables behind place A.
#![tactic(auto)]

pub mod helper_variables;
pub mod seen;
