use machine::refusal::InstructionError;
use machine::state::VMState;

// What a step answers, and the registers behind it, which a refused skiz changes too.
#[derive(Clone, Copy)]
pub struct Moved {
    pub answer: Result<(), InstructionError>,
    pub state: VMState,
}

// The same, and how many bytes its records take.
#[derive(Clone, Copy)]
pub struct Stepped {
    pub answer: Result<(), InstructionError>,
    pub state: VMState,
    pub bytes: usize,
}
