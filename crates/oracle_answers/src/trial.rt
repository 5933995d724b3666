// One entry: its step is taken, and what comes out is compared.
use crate::counts::{CALLS, room};
use crate::entry::Entry;
use crate::memory::{Code, Memory};
use machine::lent::{LentCode, LentMemory, SeenMemory};
use machine::refusal::{InstructionError, PlaceA};
use machine::state::VMState;
use machine_open::helper_variables::helper_variables;
use machine_perform::answer::Stepped;
use machine_refusals::refusals::Refusal;
use machine_vm::step::step;
use std::io;

fn lent(code: &Code) -> LentCode<'_> {
    LentCode {
        opcodes: &code.opcodes,
        arguments: &code.arguments,
        public: &code.public,
        secret: &code.secret,
        digests: &code.digests,
    }
}

// The helper call, before the step.
fn helped(e: &Entry) -> Result<[u64; 6], PlaceA> {
    let memory = &e.memory;
    let seen = SeenMemory {
        op_stack: &memory.op_stack,
        origins: &memory.origins,
        destinations: &memory.destinations,
        addresses: &memory.addresses,
        values: &memory.values,
        output: &memory.output,
    };
    helper_variables(e.before, &lent(&e.code), &seen)
}

// The step, which changes the entry's memory.
fn stepped(before: VMState, code: &Code, memory: &mut Memory, calls: &mut [u8]) -> Stepped {
    let mut changed = LentMemory {
        op_stack: &mut memory.op_stack,
        origins: &mut memory.origins,
        destinations: &mut memory.destinations,
        addresses: &mut memory.addresses,
        values: &mut memory.values,
        output: &mut memory.output,
    };
    step(None, before, &lent(code), &mut changed, calls).stepped
}

// A number, 0 where the step is taken, and the three words that go with it.
fn answered(answer: Result<(), InstructionError>) -> Refusal {
    match answer {
        Ok(()) => Refusal {
            number: 0,
            word0: 0,
            word1: 0,
            word2: 0,
        },
        Err(error) => Refusal::from(error),
    }
}

fn carried(r: Refusal) -> [u64; 3] {
    [r.word0, r.word1, r.word2]
}

// Prints a line for each difference, and gives back whether there is none.
pub fn right(rt: &impl Print, index: u32, mut e: Entry) -> io::Result<bool> {
    let (helper_number, helpers) = match helped(&e) {
        Ok(helpers) => (0, helpers),
        Err(error) => (Refusal::from(error).number, [0u64; 6]),
    };
    let mut calls = [0u8; CALLS];
    let most = room(e.room);
    let job = &mut e;
    let stepped = stepped(job.before, &job.code, &mut job.memory, &mut calls[..most]);
    let answer = answered(stepped.answer);
    // The sponge is a part of its own.
    let registers = VMState {
        sponge: e.after.sponge,
        ..stepped.state
    };
    let memory = &e.memory;
    let wanted = &e.memory_after;
    let parts = [
        ("length", e.whole),
        ("helper number", helper_number == e.helper_number),
        ("helper variables", helpers == e.helpers),
        ("number", answer.number == e.answer.number),
        ("carried words", carried(answer) == carried(e.answer)),
        ("registers", registers == e.after),
        ("sponge", stepped.state.sponge == e.after.sponge),
        ("op stack", memory.op_stack == wanted.op_stack),
        ("origins", memory.origins == wanted.origins),
        ("destinations", memory.destinations == wanted.destinations),
        ("addresses", memory.addresses == wanted.addresses),
        ("values", memory.values == wanted.values),
        ("output", memory.output == wanted.output),
        ("bytes of calls", stepped.bytes == e.records),
        ("calls", calls.as_slice() == e.calls.as_slice()),
    ];
    for (what, same) in parts {
        if !same {
            println!(rt; "entry {index}: {what}")?;
        }
    }
    Ok(parts.iter().all(|(_, same)| *same))
}
