// The row of the processor table for a machine before its step: 37 words, in the order of the columns that the definition names.
ghost use Rattle.std.specs.Prelude.{◌≡◌, true, [] as Nil, ◌∷◌, ◌++◌, ◌+◌, ◌%◌, ◌^◌, ◌≤◌, eqb, ltb, length, get_or};
ghost use Rattle.choices.specs.Choice.{cond};
ghost use Rattle.machine.specs.Instruction.{size_of};
ghost use Rattle.machine.specs.Machine.{machine};
ghost use Rattle.machine.specs.Lent.{code_of, seen};
ghost use Rattle.machine.specs.HelperVariables.{next_opcode};
ghost use Rattle.machine.specs.ProcessorRow.{instruction_bits, jump_words, stack_words, row_of};
ghost use Rattle.machine_effects.specs.EffectView.{jump_top_of};
ghost use Rattle.machine_rows.specs.RowView.{Rowable, RowIs, RowTaken, RowPut};

use machine::lent::{LentCode, SeenMemory};
use machine::state::VMState;
use machine_decide::handed::last_entry;
use machine_effects::effect::JumpEntry;
use machine_helpers::helper_variables::{helpers, next_opcode};
use machine_isa::instruction::size;
use machine_isa::op_stack::Top;

// Outside the program the opcode of nop.
fn current_instruction(opcodes: &[u64], pointer: u64) -> u64
    ensures { result ≡ cond (ltb pointer (length opcodes.now)) (get_or opcodes.now pointer 0) 8 }
{
    let at = pointer as usize;
    if at < opcodes.len() { opcodes[at] } else { 8 }
}

fn next_instruction_or_argument(opcodes: &[u64], arguments: &[u64], pointer: u64) -> u64
    requires { length opcodes.now ≡ length arguments.now }
    ensures { result ≡ cond (ltb pointer (length opcodes.now))
        (cond (eqb (size_of (get_or opcodes.now pointer 0)) 2) (get_or arguments.now pointer 0) (next_opcode opcodes.now pointer)) 0 }
{
    let at = pointer as usize;
    if opcodes.len() <= at {
        return 0;
    }
    if size(opcodes[at]) == 2 {
        return arguments[at];
    }
    next_opcode(opcodes, pointer)
}

// The columns side by side, each written at its place: a row that is made as an array first is copied once more. o is CI, n is NIA, w the top
// sixteen words, bottom first.
#[tactic(auto, using(crate::proofs::RowLaws::columns_written))]
fn write_columns(
    row: &mut [u64],
    clock: u64,
    pointer: u64,
    o: u64,
    n: u64,
    jumps: u64,
    origin: u64,
    destination: u64,
    w: &[u64; 16],
    depth: u64,
    h: &[u64; 6],
)
    requires { length row.old ≡ 37 }
    ensures { row.new ≡ (clock ∷ pointer % 2 ^ 32 ∷ o ∷ n ∷ Nil) ++ instruction_bits o ++ (jumps ∷ origin ∷ destination ∷ Nil) ++ stack_words w.now ++ (depth ∷ h.now) }
{
    row[0] = clock;
    row[1] = pointer % 4294967296;
    row[2] = o;
    row[3] = n;
    row[4] = o % 2;
    row[5] = o / 2 % 2;
    row[6] = o / 4 % 2;
    row[7] = o / 8 % 2;
    row[8] = o / 16 % 2;
    row[9] = o / 32 % 2;
    row[10] = o / 64 % 2;
    row[11] = jumps;
    row[12] = origin;
    row[13] = destination;
    row[14] = w[15];
    row[15] = w[14];
    row[16] = w[13];
    row[17] = w[12];
    row[18] = w[11];
    row[19] = w[10];
    row[20] = w[9];
    row[21] = w[8];
    row[22] = w[7];
    row[23] = w[6];
    row[24] = w[5];
    row[25] = w[4];
    row[26] = w[3];
    row[27] = w[2];
    row[28] = w[1];
    row[29] = w[0];
    row[30] = depth;
    row[31] = h[0];
    row[32] = h[1];
    row[33] = h[2];
    row[34] = h[3];
    row[35] = h[4];
    row[36] = h[5];
}

// The jump stack's last entry, zeros where there is none.
#[tactic(auto, unfolding(machine::specs::ProcessorRow::jump_words))]
fn entry_or_zeros(top: Option<JumpEntry>) -> JumpEntry
    ensures { result.origin ∷ result.destination ∷ Nil ≡ jump_words (jump_top_of top) }
{
    match top {
        Some(entry) => entry,
        None => JumpEntry {
            origin: 0,
            destination: 0,
        },
    }
}

pub fn write_row(row: &mut [u64], state: &VMState, code: &LentCode<'_>, memory: &SeenMemory<'_>)
    requires { (length row.old ≡ 37) × Rowable (machine state.now (code_of code.now) (seen memory.now)) }
    ensures own { row.new ≡ row_of (machine state.now (code_of code.now) (seen memory.now)) }
    ensures alike { RowIs (machine state.now (code_of code.now) (seen memory.now)) row.new }
{
    let top = Top::of(memory.op_stack, state.depth);
    let h = helpers(state, code, memory);
    let entry = entry_or_zeros(last_entry(memory, state.jumps));
    write_columns(
        row,
        state.clock as u64,
        state.pointer,
        current_instruction(code.opcodes, state.pointer),
        next_instruction_or_argument(code.opcodes, code.arguments, state.pointer),
        state.jumps as u64,
        entry.origin,
        entry.destination,
        &top.words,
        state.depth as u64,
        &h,
    );
}

// The row of a machine, where rows are asked for: `asked` stands beside the row as `recording` beside its buffer, and machine_step's `advance` says why.
pub fn take_row(
    asked: bool,
    row: &mut [u64],
    state: &VMState,
    code: &LentCode<'_>,
    memory: &SeenMemory<'_>,
)
    requires { (length row.old ≡ 37) × Rowable (machine state.now (code_of code.now) (seen memory.now)) }
    ensures { RowTaken asked (machine state.now (code_of code.now) (seen memory.now)) row.new }
{
    if asked {
        write_row(row, state, code, memory);
    }
}

// The row goes into the table at a place, where rows are asked for, and becomes that of the machine behind its step. Gives the place behind it.
pub fn next_row(
    asked: bool,
    table: &mut [u64],
    at: usize,
    row: &mut [u64],
    state: &VMState,
    code: &LentCode<'_>,
    memory: &SeenMemory<'_>,
) -> usize
    requires { (asked ≡ true → at + 37 ≤ length table.old) × (length row.old ≡ 37) × Rowable (machine state.now (code_of code.now) (seen memory.now)) }
    ensures { RowPut asked table.old at row.old table.new result × RowTaken asked (machine state.now (code_of code.now) (seen memory.now)) row.new }
{
    if !asked {
        return at;
    }
    table[at..at + 37].copy_from_slice(row);
    write_row(row, state, code, memory);
    at + 37
}
