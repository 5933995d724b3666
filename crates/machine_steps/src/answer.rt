use machine::refusal::InstructionError;
use machine::state::VMState;

// How run, trace_execution or trace_rows ended. Full: fewer bytes of the log are left than a step may write; TableFull: fewer words of the table than
// a row has. run, which writes neither, never ends so.
#[derive(Clone, Copy)]
pub enum Ending {
    Halted,
    Spent,
    Full,
    TableFull,
    Refused(InstructionError),
}

// How many steps succeeded, how it ended, the registers then, how many bytes of the log are written, by run none, and what the steps cost,
// nothing without a fee table. Of trace_rows as many rows are written as steps succeeded.
#[derive(Clone, Copy)]
pub struct Ran {
    pub count: u64,
    pub ending: Ending,
    pub state: VMState,
    pub bytes: usize,
    pub fee: u64,
}
