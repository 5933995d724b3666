// The registers of an entry.
use crate::counts::Counts;
use crate::reader::Reader;
use machine::state::VMState;
use tip5::sponge::Sponge;

fn sponge(entry: &mut Reader, set: bool) -> Sponge {
    let mut words = [0u64; 16];
    for word in words.iter_mut() {
        *word = entry.word();
    }
    Sponge { words, set }
}

// All but the counts of memory, which stand elsewhere.
pub fn read(entry: &mut Reader) -> VMState {
    let clock = (entry.word() % 4294967296) as u32;
    let pointer = entry.word();
    let publics = entry.word() as usize;
    let secrets = entry.word() as usize;
    let digests = entry.word() as usize;
    let halted = entry.word() == 1;
    let set = entry.word() == 1;
    VMState {
        clock,
        pointer,
        depth: 0,
        jumps: 0,
        cells: 0,
        outputs: 0,
        publics,
        secrets,
        digests,
        sponge: sponge(entry, set),
        halted,
        revision: 1,
    }
}

pub fn with_counts(state: VMState, counts: Counts) -> VMState {
    VMState {
        depth: counts.depth,
        jumps: counts.jumps,
        cells: counts.cells,
        outputs: counts.outputs,
        ..state
    }
}
