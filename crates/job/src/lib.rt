// The parts of the program runjob that are proved: reading a job file, writing the lines that it prints.
#![tactic(auto)]

pub mod frame;
mod from_end;
pub mod job_file;
pub mod listing;
pub mod log_lines;
pub mod put;
