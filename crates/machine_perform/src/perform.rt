// What an effect makes of the machine: each slice in its own function, and the registers last.
ghost use Rattle.std.specs.Prelude.{◌≡◌, ◌+◌, ◌-◌, ◌≤◌, length, set};
ghost use Rattle.machine.specs.Ram.{cells};
ghost use Rattle.machine.specs.Lent.{memory_of, Keeps};
ghost use Rattle.machine.specs.Apply.{put, touched, origins_after, destinations_after};
ghost use Rattle.machine_ram.specs.LentCells.{cells_of_mut, Keeps as KeepsRam};
ghost use Rattle.machine_isa.specs.FewWords.{words_of};
ghost use Rattle.machine_effects.specs.declared.effect.Direction.TheVariants.{Write};
ghost use Rattle.machine_effects.specs.EffectView.{jump_of, accesses_of, first_accesses};
ghost use Rattle.machine_perform.specs.PerformView.{WritesRow, Writes, Moves, moved_to, Ready, Performed, Dropped};

use crate::limits::jumps_after;
use machine::lent::LentMemory;
use machine::state::VMState;
use machine_effects::effect::{Access, Accesses, Effect, JumpChange};
use machine_isa::few::Few;
use machine_isa::op_stack::apply;
use machine_ram::ram_mut::RamMut;
use tip5::sponge::Sponge;

// Stores a word; a place that the slice does not have is left alone.
fn store(s: &mut [u64], at: usize, word: u64)
    ensures { s.new ≡ set s.old at word }
{
    if at < s.len() {
        s[at] = word;
    }
}

// The jump stack's two slices: an entry is put on, or the top one becomes 0.
fn change_jumps(origins: &mut [u64], destinations: &mut [u64], n: usize, change: JumpChange)
    ensures origins { origins.new ≡ origins_after origins.old n (jump_of change) }
    ensures destinations { destinations.new ≡ destinations_after destinations.old n (jump_of change) }
{
    match change {
        JumpChange::Stays => {}
        JumpChange::Pushes(entry) => {
            store(origins, n, entry.origin);
            store(destinations, n, entry.destination);
        }
        JumpChange::Pops => {
            let top = n.saturating_sub(1);
            store(origins, top, 0);
            store(destinations, top, 0);
        }
    }
}

// Writes of RAM, in order. The first is looked for at the end, each other beside the one before.
fn write_row(ram: &mut RamMut<'_>, writes: &[Access])
    requires { WritesRow (cells_of_mut ram.old) writes.now }
    ensures touched { cells_of_mut ram.new ≡ touched (cells_of_mut ram.old) (first_accesses Write writes.now (length writes.now)) }
    ensures lent { KeepsRam ram.old ram.new }
{
    let mut guess = ram.count;
    for write in writes {
        guess = ram.write_near(write.address, write.value, guess);
    }
}

// The same of two slices; gives how many cells are used then.
fn write_cells(addresses: &mut [u64], values: &mut [u64], count: usize, writes: &[Access]) -> usize
    requires { WritesRow (cells count addresses.old values.old) writes.now }
    ensures { cells result addresses.new values.new ≡ touched (cells count addresses.old values.old) (first_accesses Write writes.now (length writes.now)) }
{
    let mut ram = RamMut {
        addresses,
        values,
        count,
    };
    write_row(&mut ram, writes);
    ram.count
}

// An effect's accesses, of which writes change RAM; gives how many cells are used then.
fn write_all(addresses: &mut [u64], values: &mut [u64], count: usize, accesses: &Accesses) -> usize
    requires { Writes (cells count addresses.old values.old) accesses.now }
    ensures { cells result addresses.new values.new ≡ touched (cells count addresses.old values.old) (accesses_of accesses.now) }
{
    if accesses.reads == accesses.count {
        return count;
    }
    write_cells(addresses, values, count, accesses.writes_as_slice())
}

// Puts words behind those that are out.
fn put_out(output: &mut [u64], at: usize, words: &Few<5>)
    requires { at + length (words_of words.now) ≤ length output.old }
    ensures { output.new ≡ put output.old at (words_of words.now) }
{
    let s = words.as_slice();
    output[at..at + s.len()].copy_from_slice(s);
}

// The registers: only pointer and sponge do not follow from the effect.
fn moved(state: &VMState, effect: &Effect, pointer: u64, sponge: &Sponge, used: usize) -> VMState
    requires { Moves state.now effect.now }
    ensures { result ≡ moved_to state.now effect.now pointer sponge.now used }
{
    let jumps = jumps_after(state.jumps, effect.jump);
    VMState {
        clock: state.clock + 1,
        pointer,
        depth: state.depth - effect.pops + effect.words.as_slice().len(),
        jumps,
        cells: used,
        outputs: state.outputs + effect.output.as_slice().len(),
        publics: state.publics + effect.publics,
        secrets: state.secrets + effect.secrets,
        digests: state.digests + effect.digests,
        sponge: *sponge,
        halted: effect.halts,
        revision: state.revision,
    }
}

// The machine after an effect, with this pointer and this sponge.
pub fn perform(
    state: &VMState,
    effect: &Effect,
    pointer: u64,
    sponge: &Sponge,
    memory: &mut LentMemory<'_>,
) -> VMState
    requires { Ready state.now effect.now (memory_of memory.old) }
    ensures performed { Performed state.now effect.now pointer sponge.now (memory_of memory.old) result (memory_of memory.new) }
    ensures lent { Keeps memory.old memory.new }
{
    apply(memory.op_stack, state.depth, effect.pops, &effect.words);
    change_jumps(
        memory.origins,
        memory.destinations,
        state.jumps,
        effect.jump,
    );
    let used = write_all(
        memory.addresses,
        memory.values,
        state.cells,
        &effect.accesses,
    );
    put_out(memory.output, state.outputs, &effect.output);
    moved(state, effect, pointer, sponge, used)
}

// The top word of the op stack dropped, all else as it was.
pub fn drop_top(state: &VMState, op_stack: &mut [u64]) -> VMState
    requires { 1 ≤ state.now.depth }
    ensures { Dropped state.now op_stack.old result op_stack.new }
{
    let depth = state.depth - 1;
    store(op_stack, depth, 0);
    VMState { depth, ..*state }
}
