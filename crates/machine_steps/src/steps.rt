// The steps of run, of trace_execution and of trace_rows: up to a budget, with their records in a lent log, their rows in a lent table and their prices
// added up where they are asked for.
ghost use Rattle.std.specs.Prelude.{◌≡◌, ◌+◌, ◌≤◌, true, [], length, get_or};
ghost use Rattle.std.specs.Option.{option_copied};
ghost use Rattle.machine.specs.Machine.{memory, machine};
ghost use Rattle.machine.specs.Lengths.{most_bytes, row_words};
ghost use Rattle.machine.specs.Path.{lacks};
ghost use Rattle.machine.specs.Lent.{code_of, memory_of, Keeps};
ghost use Rattle.machine_quick.specs.QuickView.{Walking, Quicked};
ghost use Rattle.machine_rows.specs.RowView.{Rowable, RowTaken, RowPut};
ghost use Rattle.machine_steps.specs.RanView.{end_of};
ghost use Rattle.machine_steps.specs.StepsView.{left_of, short_of, end_full, price_by, AsksBeside, PricedAt, StandingAt, SteppedAt, StandingIn, StepsOn};

use crate::answer::{Ending, Ran};
use machine::lent::{LentCode, LentMemory};
use machine::refusal::InstructionError;
use machine::state::VMState;
use machine_isa::instruction::most_bytes;
use machine_quick::quick::{Beside, QuickStep, quick_beside};
use machine_rows::processor_row::{next_row, take_row};
use machine_step::advance::advance;
use machine_step::records::moved;

// How steps ended that were neither refused nor full.
fn end(halted: bool) -> Ending
    ensures { result ≡ end_of halted }
{
    if halted {
        Ending::Halted
    } else {
        Ending::Spent
    }
}

// Whether fewer bytes of a log are left than a step may write, where one is asked for. The revision is looked at only where few are left: a number of
// bytes kept beside the loop takes time at each step.
#[tactic(auto, using(crate::proofs::StepsLaws::lacks_none))]
fn log_lacks(recording: bool, left: usize, revision: u64) -> bool
    ensures { result ≡ lacks (left_of recording left) (most_bytes revision) }
{
    if 1028 <= left {
        return false;
    }
    recording && left < most_bytes(revision)
}

// Whether fewer words of a table are left than a row has.
fn table_lacks(tabling: bool, left: usize) -> bool
    ensures { result ≡ lacks (left_of tabling left) row_words }
{
    tabling && left < 37
}

// Whether the log or the table has no room for a step.
fn short(recording: bool, bytes: usize, revision: u64, tabling: bool, words: usize) -> bool
    ensures { result ≡ short_of recording bytes (most_bytes revision) tabling words }
{
    log_lacks(recording, bytes, revision) || table_lacks(tabling, words)
}

// Which of both it is, the log named first.
fn full(recording: bool, bytes: usize, revision: u64) -> Ending
    ensures { result ≡ end_full recording bytes (most_bytes revision) }
{
    if log_lacks(recording, bytes, revision) {
        Ending::Full
    } else {
        Ending::TableFull
    }
}

// What a step from a slot costs, by the prices of the opcodes, where there are any.
fn price(prices: Option<&[u64]>, opcodes: &[u64], pointer: u64) -> u64
    requires { PricedAt (option_copied prices) opcodes.now pointer }
    ensures { result ≡ price_by (option_copied prices.entry) (get_or opcodes.now pointer 0) }
{
    match prices {
        Some(of) => of[opcodes[pointer as usize] as usize],
        None => 0,
    }
}

// A quick step, where there is one, of memory slice by slice. All but the op stack is handed on to be looked at only: of a struct whose slices may change,
// the borrow checker lends no slice to be looked at beside one that is lent to change.
#[inline(always)]
fn quick_in(
    now: &VMState,
    code: &LentCode<'_>,
    op_stack: &mut [u64],
    origins: &mut [u64],
    destinations: &mut [u64],
    addresses: &mut [u64],
    values: &mut [u64],
) -> Option<QuickStep>
    requires { Walking (machine now.now (code_of code.now) (memory op_stack.old origins.old destinations.old addresses.old values.old [])) }
    ensures { Quicked (machine now.now (code_of code.now) (memory op_stack.old origins.old destinations.old addresses.old values.old [])) result (memory op_stack.new origins.new destinations.new addresses.new values.new []) }
{
    let beside = Beside {
        origins: &*origins,
        destinations: &*destinations,
        addresses: &*addresses,
        values: &*values,
    };
    quick_beside(now, code, op_stack, &beside)
}

// The same of memory as it is lent.
#[inline(always)]
fn quick_at(now: &VMState, code: &LentCode<'_>, memory: &mut LentMemory<'_>) -> Option<QuickStep>
    requires { Walking (machine now.now (code_of code.now) (memory_of memory.old)) }
    ensures quicked { Quicked (machine now.now (code_of code.now) (memory_of memory.old)) result (memory_of memory.new) }
    ensures lent { Keeps memory.old memory.new }
{
    quick_in(
        now,
        code,
        memory.op_stack,
        memory.origins,
        memory.destinations,
        memory.addresses,
        memory.values,
    )
}

// A step that is not quick. It is handed a copy of the registers, so that the loop's own lie nowhere that a call knows of, and it is a function of its own, so
// that what it makes is made where it is taken.
#[inline(always)]
fn advance_at(
    recording: bool,
    at: usize,
    now: &mut VMState,
    code: &LentCode<'_>,
    memory: &mut LentMemory<'_>,
    b: &mut [u8],
) -> Result<usize, InstructionError>
    requires { StandingAt recording (machine now.old (code_of code.now) (memory_of memory.old)) b.old at }
    ensures stepped { SteppedAt recording (machine now.old (code_of code.now) (memory_of memory.old)) b.old at result now.new (memory_of memory.new) b.new }
    ensures lent { Keeps memory.old memory.new }
{
    let from = *now;
    let stepped = advance(recording, &from, code, memory, &mut b[at..]);
    *now = stepped.state;
    stepped.answer?;
    Ok(at + stepped.bytes)
}

// Whether rows or prices are asked for: a step with neither pays one test for both.
fn asks_beside(tabling: bool, prices: Option<&[u64]>) -> bool
    ensures { AsksBeside tabling (option_copied prices.entry) result }
{
    match prices {
        Some(_) => true,
        None => tabling,
    }
}

// One step, a quick one where there is one, with its records behind place `at` of the log; gives the place behind them.
#[inline(always)]
fn step_at(
    recording: bool,
    at: usize,
    now: &mut VMState,
    code: &LentCode<'_>,
    memory: &mut LentMemory<'_>,
    b: &mut [u8],
) -> Result<usize, InstructionError>
    requires { StandingAt recording (machine now.old (code_of code.now) (memory_of memory.old)) b.old at }
    ensures stepped { SteppedAt recording (machine now.old (code_of code.now) (memory_of memory.old)) b.old at result now.new (memory_of memory.new) b.new }
    ensures lent { Keeps memory.old memory.new }
{
    if let Some(q) = quick_at(now, code, memory) {
        let stack = memory.look().op_stack;
        let next = moved(recording, now.clock, stack, now.depth, q.depth, b, at);
        now.clock += 1;
        now.pointer = q.pointer;
        now.depth = q.depth;
        return Ok(next);
    }
    advance_at(recording, at, now, code, memory, b)
}

// As `next_row`, which is handed a copy of the registers as well.
#[inline(always)]
fn put_row(
    asked: bool,
    table: &mut [u64],
    at: usize,
    row: &mut [u64],
    state: &VMState,
    code: &LentCode<'_>,
    memory: &LentMemory<'_>,
) -> usize
    requires { (asked ≡ true → at + 37 ≤ length table.old) × (length row.old ≡ 37) × Rowable (machine state.now (code_of code.now) (memory_of memory.now)) }
    ensures { RowPut asked table.old at row.old table.new result × RowTaken asked (machine state.now (code_of code.now) (memory_of memory.now)) row.new }
{
    if !asked {
        return at;
    }
    let shown = *state;
    next_row(true, table, at, row, &shown, code, &memory.look())
}

// Up to `budget` steps of a sound machine. Each tries halted, then spent, then full, then a step. The row of the machine is at hand before its step
// and goes into the table behind it, since a refused step leaves the table as it is; its price is added behind it.
//
// A `while`: it ends by two tests, and a `for` over the budget would say at two places how. `recording` and `tabling` stand beside their slices as machine_step's
// `advance` says.
pub fn steps(
    recording: bool,
    tabling: bool,
    budget: u64,
    state: VMState,
    code: &LentCode<'_>,
    memory: &mut LentMemory<'_>,
    b: &mut [u8],
    table: &mut [u64],
    prices: Option<&[u64]>,
) -> Ran
    requires { StandingIn (machine state (code_of code.now) (memory_of memory.old)) b.old table.old (option_copied prices) }
    ensures steps { StepsOn recording tabling budget (machine state (code_of code.now) (memory_of memory.old)) b.old table.old (option_copied prices.entry) result (memory_of memory.new) b.new table.new }
    ensures lent { Keeps memory.old memory.new }
{
    let mut now = state;
    let mut count: u64 = 0;
    let mut at: usize = 0;
    let mut filled: usize = 0;
    let mut fee: u64 = 0;
    let beside = asks_beside(tabling, prices);
    let mut row = [0u64; 37];
    take_row(tabling, &mut row, &state, code, &memory.look());
    while count < budget && !now.halted {
        let bytes = b.len() - at;
        if short(
            recording,
            bytes,
            now.revision,
            tabling,
            table.len() - filled,
        ) {
            return Ran {
                count,
                ending: full(recording, bytes, now.revision),
                state: now,
                bytes: at,
                fee,
            };
        }
        let from = now.pointer;
        match step_at(recording, at, &mut now, code, memory, b) {
            Ok(next) => at = next,
            Err(error) => {
                return Ran {
                    count,
                    ending: Ending::Refused(error),
                    state: now,
                    bytes: at,
                    fee,
                };
            }
        }
        count += 1;
        if !beside {
            continue;
        }
        fee += price(prices, code.opcodes, from);
        filled = put_row(tabling, table, filled, &mut row, &now, code, memory);
    }
    Ran {
        count,
        ending: end(now.halted),
        state: now,
        bytes: at,
        fee,
    }
}
