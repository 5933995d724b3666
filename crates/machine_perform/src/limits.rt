// Place D: whether there is room for an effect.
ghost use Rattle.std.specs.Prelude.{◌≡◌, ◌+◌, ◌-◌, ◌≤◌, ◌<◌, ◌==◌, length, is_ok};
ghost use Rattle.std.specs.List.{list_any};
ghost use Rattle.choices.specs.Choice.{cond, first_of, above_of};
ghost use Rattle.machine.specs.Ram.{cells};
ghost use Rattle.machine.specs.Apply.{touched, jumps_after as jumps_by};
ghost use Rattle.machine.specs.Lent.{seen};
ghost use Rattle.machine.specs.Refusal.{number_d, found_d};
ghost use Rattle.machine_ram.specs.LentCells.{cells_of};
ghost use Rattle.machine_effects.specs.EffectView.{jump_of, accesses_of, first_accesses};
ghost use Rattle.machine_effects.specs.declared.effect.Direction.TheVariants.{Write};
ghost use Rattle.machine_isa.specs.FewWords.{words_of};
ghost use Rattle.machine_perform.specs.PerformView.{new_of, fresh_of, Fit, Limited};

use machine::lent::SeenMemory;
use machine::refusal::PlaceD;
use machine::state::VMState;
use machine_effects::effect::{Access, Accesses, Effect, JumpChange};
use machine_ram::ram::Ram;

// How many entries the jump stack has after a change.
pub fn jumps_after(n: usize, change: JumpChange) -> usize
    requires { n ≤ 16777216 }
    ensures { result ≡ jumps_by n (jump_of change) }
{
    match change {
        JumpChange::Stays => n,
        JumpChange::Pushes(_) => n + 1,
        JumpChange::Pops => n.saturating_sub(1),
    }
}

// Whether one of these writes has an address.
fn among(writes: &[Access], address: u64) -> bool
    ensures { result ≡ list_any (λ write. write.address == address) writes.now }
{
    writes.iter().any(|write| write.address == address)
}

// The place of the address of write i, or a guess at it: an error where the write adds a cell, since the address has none and no write
// before it has the same.
fn new_cell(ram: &Ram<'_>, writes: &[Access], i: usize, guess: usize) -> Result<usize, usize>
    requires { i < length writes.now }
    ensures { cond (is_ok result) 0 1 ≡ new_of ram.now.addresses.now ram.now.count writes.now i }
{
    let address = writes[i].address;
    if among(&writes[..i], address) {
        return Ok(guess);
    }
    ram.find_near(address, guess)
}

// How many cells the writes add; they are looked for as write_row does.
fn fresh(ram: &Ram<'_>, writes: &[Access]) -> usize
    ensures { result ≡ fresh_of ram.now.addresses.now ram.now.count writes.now (length writes.now) }
{
    let mut more = 0;
    let mut guess = ram.count;
    for i in 0..writes.len() {
        match new_cell(ram, writes, i, guess) {
            Ok(place) => guess = place,
            Err(place) => {
                guess = place;
                more += 1;
            }
        }
    }
    more
}

// No more than there is, or this error.
#[tactic(auto, unfolding(choices::specs::Choice::above_of))]
fn check_room(needed: usize, most: usize, error: PlaceD) -> Result<(), PlaceD>
    ensures { found_d result ≡ above_of needed most (number_d error) }
{
    if most < needed { Err(error) } else { Ok(()) }
}

// The cells that writes need. Addresses are looked for only where the table is nearly full.
fn check_writes(ram: &Ram<'_>, writes: &[Access]) -> Result<(), PlaceD>
    requires { (length writes.now ≤ 10) × (length ram.now.addresses.now ≤ 16777216) × (length ram.now.addresses.now ≡ length ram.now.values.now) }
    ensures { found_d result ≡ above_of (touched (cells_of ram.now) (first_accesses Write writes.now (length writes.now))).count (length ram.now.addresses.now) 32 }
{
    if ram.count + writes.len() <= ram.addresses.len() {
        return Ok(());
    }
    let more = fresh(ram, writes);
    check_room(ram.count + more, ram.addresses.len(), PlaceD::RamFull)
}

// Reads need none.
fn check_cells(ram: &Ram<'_>, accesses: &Accesses) -> Result<(), PlaceD>
    requires { (length ram.now.addresses.now ≤ 16777216) × (length ram.now.addresses.now ≡ length ram.now.values.now) }
    ensures { found_d result ≡ above_of (touched (cells_of ram.now) (accesses_of accesses.now)).count (length ram.now.addresses.now) 32 }
{
    if accesses.reads == accesses.count {
        return Ok(());
    }
    check_writes(ram, accesses.writes_as_slice())
}

// The first that applies.
#[tactic(auto, unfolding(choices::specs::Choice::first_of))]
fn first_full(state: &VMState, effect: &Effect, memory: &SeenMemory<'_>) -> Result<(), PlaceD>
    requires { Fit state.now effect.now (seen memory.now) }
    ensures { found_d result ≡ first_of (above_of (state.now.depth - effect.now.pops + length (words_of effect.now.words)) (length memory.now.op_stack.now) 30)
        (first_of (above_of (jumps_by state.now.jumps (jump_of effect.now.jump)) (length memory.now.origins.now) 31)
        (first_of (above_of (touched (cells state.now.cells memory.now.addresses.now memory.now.values.now) (accesses_of effect.now.accesses)).count (length memory.now.addresses.now) 32)
        (first_of (above_of (state.now.outputs + length (words_of effect.now.output)) (length memory.now.output.now) 33)
        (above_of state.now.clock 4294967294 34)))) }
{
    let depth = state.depth - effect.pops + effect.words.as_slice().len();
    check_room(depth, memory.op_stack.len(), PlaceD::OpStackFull)?;
    let jumps = jumps_after(state.jumps, effect.jump);
    check_room(jumps, memory.origins.len(), PlaceD::JumpStackFull)?;
    let ram = Ram {
        addresses: memory.addresses,
        values: memory.values,
        count: state.cells,
    };
    check_cells(&ram, &effect.accesses)?;
    let outputs = state.outputs + effect.output.as_slice().len();
    check_room(outputs, memory.output.len(), PlaceD::OutputFull)?;
    check_room(state.clock as usize, 4294967294, PlaceD::ClockAtEnd)
}

// The same said of the machine, whatever its program is.
pub fn limits(state: &VMState, effect: &Effect, memory: &SeenMemory<'_>) -> Result<(), PlaceD>
    requires { Fit state.now effect.now (seen memory.now) }
    ensures { Limited state.now effect.now (seen memory.now) result }
{
    first_full(state, effect, memory)
}
