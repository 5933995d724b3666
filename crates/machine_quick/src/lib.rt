// A step that changes op stack, pointer and clock only.
#![tactic(auto)]

pub mod quick;
