// The job of jobs/memory.txt: its digest, its public word, its program, slot by slot, and its RAM.
pub const DIGEST: [u64; 5] = [9, 8, 7, 6, 5];

pub const PUBLIC: [u64; 1] = [100];

pub const OPCODES: [u64; 41] = [
    1, 1, 57, 57, 3, 3, 19, 19, 1, 1, 1, 1, 11, 11, 3, 3, 1, 1, 1, 1, 1, 1, 1, 1, 11, 11, 3, 3, 1,
    1, 57, 57, 3, 3, 19, 19, 73, 73, 19, 19, 0,
];

pub const ARGUMENTS: [u64; 41] = [
    10, 10, 1, 1, 1, 1, 1, 1, 7, 7, 20, 20, 1, 1, 1, 1, 1, 1, 2, 2, 3, 3, 30, 30, 3, 3, 1, 1, 32,
    32, 5, 5, 1, 1, 5, 5, 1, 1, 1, 1, 0,
];

// How many steps it takes. The clock is then above each record's, so replay looks at all of them.
pub const STEPS: u64 = 21;

// How many cells RAM opens with.
pub const CELLS: usize = 2;

pub const ADDRESSES: [u64; 8] = [10, 11, 0, 0, 0, 0, 0, 0];

pub const VALUES: [u64; 8] = [99, 18446744069414584320, 0, 0, 0, 0, 0, 0];
