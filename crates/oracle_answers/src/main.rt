// Takes the steps of two lists on its standard input, and compares what comes out with the answers that stand in them: the
// original Rust's, and for damaged machines the model's. host/compare/sample writes the lists, FORMAT.md there has the bytes.
#![tactic(auto)]

mod counts;
mod entry;
mod memory;
mod reader;
mod registers;
mod trial;

use entry::{Entry, Form};
use reading::read_full;
use std::collections::BTreeMap;
use std::io;
use std::io::Read;
use trial::right;

// The next entry stands behind so many bytes, where this one has more.
const BYTES: usize = 2048;

// The numbers that are counted lie below.
const NUMBERS: u64 = 64;

// The next n bytes of the lists, and zeros behind their end.
fn read<const N: usize>(lists: &mut impl Read) -> io::Result<[u8; N]> {
    let mut bytes = [0u8; N];
    read_full(lists, &mut bytes)?;
    Ok(bytes)
}

fn list<R: Print + AllocGlobal>(rt: &R, lists: &mut impl Read, form: Form) -> io::Result<()> {
    let count = u32::from_le_bytes(read::<4>(lists)?);
    // How many entries there are of each number.
    let mut tally = BTreeMap::new(rt.alloc());
    let mut differ: u32 = 0;
    for i in 0..count {
        let len = usize::from(u16::from_le_bytes(read::<2>(lists)?));
        let mut bytes = vec![in rt.alloc(); 0u8; len.min(BYTES)]?;
        read_full(lists, &mut bytes)?;
        let entry = Entry::read(rt.alloc(), &bytes, len, form)?;
        let number = entry.answer.number;
        if number < NUMBERS {
            let entries = tally.entry(number)?.or_insert(0u32);
            *entries = entries.saturating_add(1);
        }
        if !right(rt, i, entry)? {
            differ = differ.saturating_add(1);
        }
    }
    for (number, entries) in &tally {
        println!(rt; "number {number}: {entries}")?;
    }
    println!(rt; "{count} entries, {differ} differ")
}

fn main(rt: HostRuntime) -> io::Result<()> {
    let mut lists = rt.stdin();
    println!(rt; "single steps")?;
    list(&rt, &mut lists, Form::Plain)?;
    println!(rt; "damaged machines")?;
    list(&rt, &mut lists, Form::Full)
}
