// Place A: what is wrong with what a call is handed. Each number is tried over everything before the next.
#![tactic(auto, unfolding(choices::specs::Choice::first_of, choices::specs::Choice::above_of, choices::specs::Choice::differ_of))]

ghost use Rattle.std.specs.Prelude.{◌≡◌, [] as Nil, ◌-◌, ◌/◌, ◌≤◌, length, OnOk};
ghost use Rattle.choices.specs.Choice.{first_of, above_of, differ_of};
ghost use Rattle.machine.specs.Refusal.{number_a, found_a};
ghost use Rattle.machine.specs.Words.{word_of2, words_of, zeros_from};
ghost use Rattle.machine.specs.Ram.{cells as cells_of, cells1, cells2, cells5, falls_of};
ghost use Rattle.machine.specs.Machine.{machine, code};
ghost use Rattle.machine.specs.Lent.{code_of, seen};
ghost use Rattle.machine.specs.PlaceA.{longest, most_bytes, code1, memory1, code2, used2, machine2, code34, revision4, unused5, machine5, machine_a, open_a};

use field::base::P;
use machine::lent::{LentCode, SeenMemory};
use machine::refusal::PlaceA;
use machine::state::VMState;
use machine_isa::instruction::{self, check_argument, check_opcode};
use machine_ram::ram;

// How many words, or bytes, a slice may have.
const LONGEST: usize = 16777216;

// How many words are read between two tests of what was read.
const PIECE: usize = 256;

// ---- 1: lengths

// No more than there may be, or this error.
pub fn check_at_most(count: usize, most: usize, error: PlaceA) -> Result<(), PlaceA>
    ensures { found_a result ≡ above_of count most (number_a error) }
{
    if most < count { Err(error) } else { Ok(()) }
}

pub fn check_length(len: usize) -> Result<(), PlaceA>
    ensures { found_a result ≡ above_of len longest 1 }
{
    check_at_most(len, LONGEST, PlaceA::BadShape)
}

// Slices that go together are as long.
pub fn check_pair(a: usize, b: usize) -> Result<(), PlaceA>
    ensures { found_a result ≡ differ_of a b 1 }
{
    if a == b {
        Ok(())
    } else {
        Err(PlaceA::BadShape)
    }
}

// An argument for each opcode, and digests of five words.
#[tactic(auto, unfolding(choices::specs::Choice::first_of, choices::specs::Choice::above_of, choices::specs::Choice::differ_of, machine::specs::PlaceA::code1))]
fn check_code_lengths(code: &LentCode<'_>) -> Result<(), PlaceA>
    ensures number { found_a result ≡ code1 (code_of code.now) }
    ensures paired { OnOk result (length code.now.opcodes.now ≡ length code.now.arguments.now) }
{
    check_length(code.opcodes.len())?;
    check_length(code.arguments.len())?;
    check_length(code.public.len())?;
    check_length(code.secret.len())?;
    check_length(code.digests.len())?;
    check_pair(code.opcodes.len(), code.arguments.len())?;
    check_pair(code.digests.len() % 5, 0)
}

// A value for each address.
#[tactic(auto, unfolding(choices::specs::Choice::first_of, choices::specs::Choice::above_of, choices::specs::Choice::differ_of, machine::specs::Ram::cells1))]
pub fn check_cell_lengths(addresses: &[u64], values: &[u64]) -> Result<(), PlaceA>
    ensures { found_a result ≡ cells1 (cells_of 0 addresses.now values.now) }
{
    check_length(addresses.len())?;
    check_length(values.len())?;
    check_pair(addresses.len(), values.len())
}

// The op stack has at least sixteen words.
#[tactic(auto, unfolding(choices::specs::Choice::first_of, choices::specs::Choice::above_of, choices::specs::Choice::differ_of, machine::specs::PlaceA::memory1))]
fn check_memory_lengths(memory: &SeenMemory<'_>) -> Result<(), PlaceA>
    ensures { found_a result ≡ memory1 (seen memory.now) }
{
    check_length(memory.op_stack.len())?;
    check_at_most(16, memory.op_stack.len(), PlaceA::BadShape)?;
    check_length(memory.origins.len())?;
    check_length(memory.destinations.len())?;
    check_pair(memory.origins.len(), memory.destinations.len())?;
    check_cell_lengths(memory.addresses, memory.values)?;
    check_length(memory.output.len())
}

// Step's call buffer, by its length and the log's revision.
pub fn check_buffer(revision: u64, len: usize) -> Result<(), PlaceA>
    ensures { found_a result ≡ first_of (above_of len longest 1) (above_of (most_bytes revision) len 1) }
{
    check_length(len)?;
    check_at_most(instruction::most_bytes(revision), len, PlaceA::BadShape)
}

// ---- 2: words

#[tactic(auto, unfolding(machine::specs::Words::word_of2))]
fn check_word(word: u64) -> Result<(), PlaceA>
    ensures { found_a result ≡ word_of2 word }
{
    if P <= word {
        Err(PlaceA::NotAWord)
    } else {
        Ok(())
    }
}

// Each word of a piece is looked at, whatever the one before was: the compiler takes two at a time then, and a call with much memory is
// mostly this loop.
fn check_piece(piece: &[u64]) -> Result<(), PlaceA>
    ensures { found_a result ≡ words_of piece.now (length piece.now) }
{
    let mut good = true;
    for word in piece {
        good &= *word < P;
    }
    if good { Ok(()) } else { Err(PlaceA::NotAWord) }
}

// By pieces, so that behind the first that is no word only the rest of its piece is read.
fn check_words(words: &[u64]) -> Result<(), PlaceA>
    ensures { found_a result ≡ words_of words.now (length words.now) }
{
    for piece in words.chunks(PIECE) {
        check_piece(piece)?;
    }
    Ok(())
}

// As much of a slice as is used.
fn check_used_words(words: &[u64], count: usize) -> Result<(), PlaceA>
    ensures { found_a result ≡ used2 words.now count }
{
    check_words(&words[..words.len().min(count)])
}

// Program and inputs are used as a whole.
#[tactic(auto, unfolding(choices::specs::Choice::first_of, machine::specs::PlaceA::code2))]
fn check_code_words(code: &LentCode<'_>) -> Result<(), PlaceA>
    ensures { found_a result ≡ code2 (code_of code.now) }
{
    check_words(code.arguments)?;
    check_words(code.public)?;
    check_words(code.secret)?;
    check_words(code.digests)
}

#[tactic(auto, unfolding(choices::specs::Choice::first_of, machine::specs::Ram::cells2))]
pub fn check_cell_words(addresses: &[u64], values: &[u64], count: usize) -> Result<(), PlaceA>
    ensures { found_a result ≡ cells2 (cells_of count addresses.now values.now) }
{
    check_used_words(addresses, count)?;
    check_used_words(values, count)
}

// The words of a sponge that is not set are looked at too.
#[tactic(auto, unfolding(choices::specs::Choice::first_of, machine::specs::PlaceA::machine2))]
fn check_machine_words(
    state: &VMState,
    code: &LentCode<'_>,
    memory: &SeenMemory<'_>,
) -> Result<(), PlaceA>
    ensures { found_a result ≡ machine2 (machine state.now (code_of code.now) (seen memory.now)) }
{
    check_code_words(code)?;
    check_used_words(memory.op_stack, state.depth)?;
    check_used_words(memory.origins, state.jumps)?;
    check_used_words(memory.destinations, state.jumps)?;
    check_cell_words(memory.addresses, memory.values, state.cells)?;
    check_words(&state.sponge.words)?;
    check_word(state.pointer)
}

// ---- 3 and 4: slots and the revision

// One pass serves both: an unknown opcode anywhere comes before an argument that is not allowed. Arguments are taken by index: with
// `zip` the loop knows both slices by their iterators alone, and the proof did not close.
fn check_slots(code: &LentCode<'_>) -> Result<(), PlaceA>
    requires { length code.now.opcodes.now ≤ length code.now.arguments.now }
    ensures { found_a result ≡ code34 (code_of code.now) }
{
    let mut arguments = Ok(());
    for (i, opcode) in code.opcodes.iter().enumerate() {
        check_opcode(*opcode)?;
        arguments = arguments.and(check_argument(*opcode, code.arguments[i]));
    }
    arguments
}

#[tactic(auto, unfolding(machine::specs::PlaceA::revision4))]
pub fn check_revision(revision: u64) -> Result<(), PlaceA>
    ensures { found_a result ≡ revision4 revision }
{
    match revision {
        1 | 2 => Ok(()),
        _ => Err(PlaceA::IllegalArgument),
    }
}

// ---- 5: depth, counts and positions, and what is not used

// Each word of a piece is looked at, as in check_piece.
fn check_zeros(piece: &[u64]) -> Result<(), PlaceA>
    ensures { found_a result ≡ zeros_from piece.now 0 (length piece.now) }
{
    let mut good = true;
    for word in piece {
        good &= *word == 0;
    }
    if good { Ok(()) } else { Err(PlaceA::BadState) }
}

// What stands at place `used` and behind it is 0. By pieces, as in check_words.
pub fn check_unused(words: &[u64], used: usize) -> Result<(), PlaceA>
    ensures { found_a result ≡ unused5 words.now used }
{
    let unused = &words[words.len().min(used)..];
    for piece in unused.chunks(PIECE) {
        check_zeros(piece)?;
    }
    Ok(())
}

fn check_ascending(addresses: &[u64], count: usize) -> Result<(), PlaceA>
    requires { count ≤ length addresses.now }
    ensures { found_a result ≡ falls_of addresses.now (count - 1) }
{
    if ram::is_ascending(addresses, count) {
        Ok(())
    } else {
        Err(PlaceA::BadState)
    }
}

// The count is tried first, so that no address beyond the slice is looked for.
#[tactic(auto, unfolding(choices::specs::Choice::first_of, choices::specs::Choice::above_of, machine::specs::Ram::cells5))]
pub fn check_cells(addresses: &[u64], count: usize) -> Result<(), PlaceA>
    ensures { found_a result ≡ cells5 (cells_of count addresses.now Nil) }
{
    check_at_most(count, addresses.len(), PlaceA::BadState)?;
    check_ascending(addresses, count)
}

#[tactic(auto, unfolding(choices::specs::Choice::first_of, choices::specs::Choice::above_of, machine::specs::Ram::cells5, machine::specs::PlaceA::machine5))]
fn check_state(state: &VMState, code: &LentCode<'_>, memory: &SeenMemory<'_>) -> Result<(), PlaceA>
    ensures { found_a result ≡ machine5 (machine state.now (code_of code.now) (seen memory.now)) }
{
    check_at_most(16, state.depth, PlaceA::BadState)?;
    check_at_most(state.depth, memory.op_stack.len(), PlaceA::BadState)?;
    check_at_most(state.jumps, memory.origins.len(), PlaceA::BadState)?;
    check_at_most(state.outputs, memory.output.len(), PlaceA::BadState)?;
    check_at_most(state.publics, code.public.len(), PlaceA::BadState)?;
    check_at_most(state.secrets, code.secret.len(), PlaceA::BadState)?;
    check_at_most(state.digests, code.digests.len() / 5, PlaceA::BadState)?;
    check_unused(memory.op_stack, state.depth)?;
    check_unused(memory.origins, state.jumps)?;
    check_unused(memory.destinations, state.jumps)?;
    check_cells(memory.addresses, state.cells)
}

// ---- the calls

// Place A of run and of helper variables; a step's has check_buffer before it. The work is linear. In words read: opcodes,
// inputs and stacks once, arguments twice, the values of used RAM cells once and their addresses three times.
#[tactic(auto, unfolding(choices::specs::Choice::first_of, machine::specs::PlaceA::machine_a))]
pub fn check_machine(
    state: &VMState,
    code: &LentCode<'_>,
    memory: &SeenMemory<'_>,
) -> Result<(), PlaceA>
    ensures { found_a result ≡ machine_a (machine state.now (code_of code.now) (seen memory.now)) }
{
    check_code_lengths(code)?;
    check_memory_lengths(memory)?;
    check_machine_words(state, code, memory)?;
    check_slots(code)?;
    check_revision(state.revision)?;
    check_state(state, code, memory)
}

// Place A of open.
#[tactic(auto, unfolding(choices::specs::Choice::first_of, machine::specs::Ram::cells5, machine::specs::PlaceA::open_a))]
pub fn check_open(
    revision: u64,
    digest: &[u64; 5],
    code: &LentCode<'_>,
    memory: &SeenMemory<'_>,
    cells: usize,
) -> Result<(), PlaceA>
    ensures { found_a result ≡ open_a revision digest.now (code_of code.now) (seen memory.now) cells }
{
    check_code_lengths(code)?;
    check_memory_lengths(memory)?;
    check_code_words(code)?;
    check_words(digest)?;
    check_cell_words(memory.addresses, memory.values, cells)?;
    check_slots(code)?;
    check_revision(revision)?;
    check_cells(memory.addresses, cells)
}
