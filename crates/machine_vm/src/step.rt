// step: place A, and the fee table where one is handed in, then one step with its records.
ghost use Rattle.std.specs.Prelude.{◌≡◌, true, length, get_or, IsSome, is_ok};
ghost use Rattle.choices.specs.Choice.{first_of};
ghost use Rattle.machine.specs.Machine.{machine};
ghost use Rattle.machine.specs.PlaceA.{step_a};
ghost use Rattle.machine.specs.Refusal.{found_a};
ghost use Rattle.machine.specs.Lent.{code_of, memory_of, seen, Keeps};
ghost use Rattle.machine_fees.specs.FeeView.{Priceable, fees_of};
ghost use Rattle.machine_vm.specs.StepView.{Steps, NamesRow, StepsPriced};

use machine::lent::{LentCode, LentMemory, SeenMemory};
use machine::refusal::{InstructionError, PlaceA};
use machine::state::VMState;
use machine_fees::fee_table::{LentFees, check_fees_behind};
use machine_perform::answer::Stepped;
use machine_place_a::checks::{check_buffer, check_machine};
use machine_step::advance::advance;

// Place A, with the call buffer's length first.
#[tactic(auto, unfolding(choices::specs::Choice::first_of, machine::specs::PlaceA::step_a, machine::specs::PlaceA::buffer1))]
fn check_step(
    b: &[u8],
    state: &VMState,
    code: &LentCode<'_>,
    memory: &SeenMemory<'_>,
) -> Result<(), PlaceA>
    ensures { found_a result ≡ step_a (machine state.now (code_of code.now) (seen memory.now)) b.now }
{
    check_buffer(state.revision, b.len())?;
    check_machine(state, code, memory)
}

// With a table or without.
fn checked(
    fees: Option<LentFees<'_>>,
    prices: &mut [u64],
    state: VMState,
    code: &LentCode<'_>,
    memory: &mut LentMemory<'_>,
    b: &mut [u8],
) -> Stepped
    requires { IsSome fees → Priceable prices.old }
    ensures steps { Steps (fees_of fees.entry) (machine state (code_of code.now) (memory_of memory.old)) b.old result (memory_of memory.new) b.new }
    ensures lent { Keeps memory.old memory.new }
{
    let handed = check_step(b, &state, code, &memory.look());
    match check_fees_behind(fees, handed, prices) {
        Ok(()) => advance(true, &state, code, memory, b),
        Err(error) => Stepped {
            answer: Err(error),
            state,
            bytes: 0,
        },
    }
}

// A step, and the row of the fee table that priced it, counted from 0; 0 where there is no table.
#[derive(Clone, Copy)]
pub struct Priced {
    pub stepped: Stepped,
    pub row: usize,
}

// The opcode that a step starts at.
fn opcode_at(opcodes: &[u64], pointer: u64) -> u64
    ensures { result ≡ get_or opcodes.now pointer 0 }
{
    let at = pointer as usize;
    if at < opcodes.len() { opcodes[at] } else { 0 }
}

// A refused step costs nothing and names row 0.
fn row_named(answer: Result<(), InstructionError>, opcode: u64, table: &LentFees<'_>) -> usize
    requires { is_ok answer ≡ true → length table.now.lowest.now ≡ length table.now.highest.now }
    ensures { NamesRow (is_ok answer) table.now.lowest.now table.now.highest.now opcode result }
{
    match answer {
        Ok(()) => table.find_row(opcode).row,
        Err(_) => 0,
    }
}

// A refused step changes nothing, but that skiz on 0 with nothing next has dropped its word; its bytes are 0.
pub fn step(
    fees: Option<LentFees<'_>>,
    state: VMState,
    code: &LentCode<'_>,
    memory: &mut LentMemory<'_>,
    b: &mut [u8],
) -> Priced
    ensures steps { StepsPriced (fees_of fees.entry) (machine state (code_of code.now) (memory_of memory.old)) b.old result (memory_of memory.new) b.new }
    ensures lent { Keeps memory.old memory.new }
{
    match fees {
        None => {
            let mut none = [0u64; 1];
            let stepped = checked(None, &mut none, state, code, memory, b);
            Priced { stepped, row: 0 }
        }
        Some(table) => {
            let mut prices = [0u64; 128];
            let stepped = checked(fees, &mut prices, state, code, memory, b);
            let opcode = opcode_at(code.opcodes, state.pointer);
            let row = row_named(stepped.answer, opcode, &table);
            Priced { stepped, row }
        }
    }
}
