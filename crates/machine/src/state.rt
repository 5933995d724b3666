use tip5::sponge::Sponge;

// The registers of a job. Everything else is lent with each call.
#[derive(Clone, Copy, PartialEq, Eq, Debug)]
pub struct VMState {
    // How many steps were taken.
    pub clock: u32,
    // The slot that comes next.
    pub pointer: u64,
    // How many words the op stack has.
    pub depth: usize,
    // How many entries of the jump stack, RAM cells and output words are used.
    pub jumps: usize,
    pub cells: usize,
    pub outputs: usize,
    // How many public words, secret words and secret digests are taken.
    pub publics: usize,
    pub secrets: usize,
    pub digests: usize,
    pub sponge: Sponge,
    pub halted: bool,
    // The log's revision: 1, or 2, whose Tip5 and U32 records have a clock. It is a number, since a caller may hand in another one, which
    // place A turns down.
    pub revision: u64,
}
