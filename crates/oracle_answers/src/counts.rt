// How many words there are of each kind.
ghost use Rattle.std.specs.Prelude.{◌≤◌};

use crate::reader::Reader;

// Of memory: words of the op stack, jump entries, RAM cells, output words.
#[derive(Clone, Copy)]
pub struct Counts {
    pub depth: usize,
    pub jumps: usize,
    pub cells: usize,
    pub outputs: usize,
}

impl Counts {
    // In the head, a byte each.
    pub fn in_head(entry: &mut Reader) -> Counts {
        Counts {
            depth: usize::from(entry.byte()),
            jumps: usize::from(entry.byte()),
            cells: usize::from(entry.byte()),
            outputs: usize::from(entry.byte()),
        }
    }

    // Behind a full entry's other words.
    pub fn in_words(entry: &mut Reader) -> Counts {
        Counts {
            depth: entry.word() as usize,
            jumps: entry.word() as usize,
            cells: entry.word() as usize,
            outputs: entry.word() as usize,
        }
    }
}

// What stands at the start of an entry.
#[derive(Clone, Copy)]
pub struct Head {
    pub slots: usize,
    pub publics: usize,
    pub secrets: usize,
    // five words a digest
    pub digests: usize,
    pub lent: Counts,
    pub before: Counts,
    pub after: Counts,
    // bytes of calls
    pub calls: usize,
}

impl Head {
    pub fn read(entry: &mut Reader) -> Head {
        Head {
            slots: usize::from(entry.byte()),
            publics: usize::from(entry.byte()),
            secrets: usize::from(entry.byte()),
            digests: 5 * usize::from(entry.byte()),
            lent: Counts::in_head(entry),
            before: Counts::in_head(entry),
            after: Counts::in_head(entry),
            calls: usize::from(u16::from_le_bytes([entry.byte(), entry.byte()])),
        }
    }
}

// How many words of each slice an entry says are lent, and how many bytes of the call buffer.
#[derive(Clone, Copy)]
pub struct Lengths {
    pub opcodes: usize,
    pub arguments: usize,
    pub public: usize,
    pub secret: usize,
    pub digests: usize,
    pub op_stack: usize,
    pub origins: usize,
    pub destinations: usize,
    pub addresses: usize,
    pub values: usize,
    pub output: usize,
    pub calls: usize,
}

// The most that is lent: of words, and of bytes.
const WORDS: usize = 64;

pub const CALLS: usize = 1024;

// How many words of a slice are lent where an entry says so many.
pub fn lent(said: usize) -> usize
    ensures { result ≤ 64 }
{
    said.min(WORDS)
}

// How many bytes of the call buffer.
pub fn room(said: usize) -> usize
    ensures { result ≤ 1024 }
{
    said.min(CALLS)
}

impl Lengths {
    pub fn in_head(head: Head) -> Lengths {
        let lent = head.lent;
        Lengths {
            opcodes: head.slots,
            arguments: head.slots,
            public: head.publics,
            secret: head.secrets,
            digests: head.digests,
            op_stack: lent.depth,
            origins: lent.jumps,
            destinations: lent.jumps,
            addresses: lent.cells,
            values: lent.cells,
            output: lent.outputs,
            calls: CALLS,
        }
    }

    pub fn in_words(entry: &mut Reader) -> Lengths {
        Lengths {
            opcodes: entry.word() as usize,
            arguments: entry.word() as usize,
            public: entry.word() as usize,
            secret: entry.word() as usize,
            digests: entry.word() as usize,
            op_stack: entry.word() as usize,
            origins: entry.word() as usize,
            destinations: entry.word() as usize,
            addresses: entry.word() as usize,
            values: entry.word() as usize,
            output: entry.word() as usize,
            calls: entry.word() as usize,
        }
    }
}
