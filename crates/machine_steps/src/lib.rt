// The steps of run, of trace_execution and of trace_rows.
#![tactic(auto)]

pub mod answer;
pub mod steps;
