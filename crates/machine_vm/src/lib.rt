// The calls that take steps, with place A before each: step, run, trace_execution, trace_rows; each without a fee table and with one.
#![tactic(auto)]

mod call;
pub mod rows;
pub mod run;
pub mod step;
pub mod trace;
