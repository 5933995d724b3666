// Runs the job of jobs/memory.txt, whose log has reads of the op stack and of RAM, and replays its log: up to each clock, and then with each
// read altered, to another word and to a number that is no word. A line each says what replay answers and what is in the lent slices then.
#![tactic(auto)]

mod alter;
mod memory_job;
mod print;

use machine::lent::{LentCode, LentMemory, OpeningMemory};
use machine_open::open::open;
use machine_vm::trace::trace_execution;
use std::io;

// Up to each clock, from before the first step on.
fn replay_clocks(rt: &impl Print, log: &[u8]) -> io::Result<()> {
    for clock in 0..=memory_job::STEPS {
        print::number(rt, b"clock ", clock)?;
        print::replay_to(rt, log, clock)?;
    }
    Ok(())
}

// The log is the first `bytes` of what is lent. Its reads are altered in a copy, so that the log itself can be gone over.
fn replay_all(rt: &impl Print, lent: [u8; 4096], bytes: usize) -> io::Result<()> {
    let most = bytes.min(lent.len());
    let mut altered = lent;
    replay_clocks(rt, &lent[..most])?;
    alter::alter_reads(rt, &lent[..most], &mut altered[..most])
}

fn main(rt: HostRuntime) -> io::Result<()> {
    let opcodes = memory_job::OPCODES;
    let arguments = memory_job::ARGUMENTS;
    let public = memory_job::PUBLIC;
    let none = [0u64; 0];
    let mut op_stack = [0u64; 32];
    let mut origins = [0u64; 4];
    let mut destinations = [0u64; 4];
    let mut addresses = memory_job::ADDRESSES;
    let mut values = memory_job::VALUES;
    let mut output = [0u64; 8];
    let mut log = [0u8; 4096];
    let code = LentCode {
        opcodes: &opcodes,
        arguments: &arguments,
        public: &public,
        secret: &none,
        digests: &none,
    };
    let mut opening = OpeningMemory {
        op_stack: &mut op_stack,
        origins: &mut origins,
        destinations: &mut destinations,
        addresses: &addresses,
        values: &values,
        output: &output,
    };
    let opened = open(
        None,
        1,
        &memory_job::DIGEST,
        memory_job::CELLS,
        &code,
        &mut opening,
    );
    let Ok(state) = opened else {
        return print::text(&rt, b"not opened\n");
    };
    let mut memory = LentMemory {
        op_stack: &mut op_stack,
        origins: &mut origins,
        destinations: &mut destinations,
        addresses: &mut addresses,
        values: &mut values,
        output: &mut output,
    };
    let traced = trace_execution(None, 100, state, &code, &mut memory, &mut log);
    print::number(&rt, b"steps ", traced.count)?;
    print::number(&rt, b" bytes ", traced.bytes as u64)?;
    print::text(&rt, b"\n")?;
    replay_all(&rt, log, traced.bytes)
}
