// An opened job of which lines are still to be printed.
pub mod piece;
pub mod start;

use machine::state::VMState;

// Only `start` makes one and only `piece` goes on with it: who prints the text cannot name or change what the next lines depend on.
#[derive(Clone, Copy)]
pub struct Pending {
    // How many words of the slices are its program and inputs.
    slots: usize,
    publics: usize,
    secrets: usize,
    digests: usize,
    // How many steps were taken, and how many may follow.
    done: u64,
    budget: u64,
    state: VMState,
}
