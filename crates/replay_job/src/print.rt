// Lines for the reader.
use crate::memory_job;
use replay_calls::call::replay;
use replay_scan::record::Log;
use replay_table::cells::Cells;
use std::io;

pub fn text(rt: &impl Print, name: &[u8]) -> io::Result<()> {
    rt.write_all(name)
}

pub fn number(rt: &impl Print, name: &[u8], n: u64) -> io::Result<()> {
    text(rt, name)?;
    print!(rt; "{n}")
}

fn words(rt: &impl Print, name: &[u8], words: &[u64; 8]) -> io::Result<()> {
    text(rt, name)?;
    for word in words {
        number(rt, b" ", *word)?;
    }
    Ok(())
}

// Replays from the opening's cells up to a clock. The stack's words are those below its top sixteen.
pub fn replay_to(rt: &impl Print, log: &[u8], clock: u64) -> io::Result<()> {
    let mut addresses = memory_job::ADDRESSES;
    let mut values = memory_job::VALUES;
    let mut stack = [0u64; 8];
    let mut ram = Cells {
        addresses: &mut addresses,
        values: &mut values,
        count: memory_job::CELLS,
    };
    let log = Log {
        bytes: log,
        revision: 1,
    };
    let (refused, depth, cells) = match replay(log, &mut ram, &mut stack, clock) {
        Ok(depth) => (0, depth, ram.count),
        Err(refusal) => (refusal.number(), 0, 0),
    };
    number(rt, b": number ", refused)?;
    number(rt, b" depth ", depth as u64)?;
    number(rt, b" cells ", cells as u64)?;
    words(rt, b" addresses", &addresses)?;
    words(rt, b" values", &values)?;
    words(rt, b" stack", &stack)?;
    text(rt, b"\n")
}
