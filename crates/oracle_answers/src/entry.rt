// An entry of a list: a step, and what it must give. host/compare/FORMAT.md has the bytes.
use crate::counts::{CALLS, Counts, Head, Lengths};
use crate::memory::{Code, Memory};
use crate::reader::Reader;
use crate::registers::{self, with_counts};
use machine::state::VMState;
use machine_refusals::refusals::Refusal;
use std::alloc::{AllocError, Global};

// Whether the lengths and counts of a list's entries are those of their heads, or said besides: those of a full entry may be any.
#[derive(Clone, Copy)]
pub enum Form {
    Plain,
    Full,
}

#[derive(Drop)]
pub struct Entry {
    pub code: Code,
    pub before: VMState,
    pub memory: Memory,
    // How many bytes of the call buffer are lent.
    pub room: usize,
    pub answer: Refusal,
    pub after: VMState,
    pub memory_after: Memory,
    pub helper_number: u64,
    pub helpers: [u64; 6],
    // How many bytes the records take, and the whole call buffer.
    pub records: usize,
    pub calls: Vec<u8>,
    // Whether the entry is as long as its list says.
    pub whole: bool,
}

// What a full entry says besides, or the head in its place.
#[derive(Clone, Copy)]
struct Besides {
    lengths: Lengths,
    helper_number: u64,
    before: Counts,
    after: Counts,
}

// Place A's numbers are the helper call's too.
fn place_a(number: u64) -> u64 {
    if number <= 5 { number } else { 0 }
}

fn said(entry: &mut Reader, form: Form, head: Head, number: u64) -> Besides {
    match form {
        Form::Plain => Besides {
            lengths: Lengths::in_head(head),
            helper_number: place_a(number),
            before: head.before,
            after: head.after,
        },
        Form::Full => Besides {
            lengths: Lengths::in_words(entry),
            helper_number: entry.word(),
            before: Counts::in_words(entry),
            after: Counts::in_words(entry),
        },
    }
}

impl Entry {
    pub fn read(alloc: Global, bytes: &[u8], len: usize, form: Form) -> Result<Entry, AllocError> {
        let mut reader = Reader::new(bytes);
        let entry = &mut reader;
        let head = Head::read(entry);
        let before = registers::read(entry);
        let mut code = Code::read(alloc, entry, head)?;
        let mut memory = Memory::read(alloc, entry, head.before)?;
        let answer = Refusal {
            number: entry.word(),
            word0: entry.word(),
            word1: entry.word(),
            word2: entry.word(),
        };
        let after = registers::read(entry);
        let mut memory_after = Memory::read(alloc, entry, head.after)?;
        let helpers = [
            entry.word(),
            entry.word(),
            entry.word(),
            entry.word(),
            entry.word(),
            entry.word(),
        ];
        let besides = said(entry, form, head, answer.number);
        let lengths = besides.lengths;
        let mut calls = entry.bytes(alloc, head.calls)?;
        let whole = entry.is_at_end(len);
        code.resize(lengths)?;
        memory.resize(lengths)?;
        memory_after.resize(lengths)?;
        calls.resize(CALLS, 0)?;
        Ok(Entry {
            code,
            before: with_counts(before, besides.before),
            memory,
            room: lengths.calls,
            answer,
            after: with_counts(after, besides.after),
            memory_after,
            helper_number: besides.helper_number,
            helpers,
            records: head.calls,
            calls,
            whole,
        })
    }
}
