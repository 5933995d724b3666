// The calls that take several steps: place A once, and the fee table where one is handed in, then steps up to a budget.
ghost use Rattle.std.specs.Prelude.{◌≡◌};
ghost use Rattle.choices.specs.Choice.{first_of, above_of};
ghost use Rattle.machine.specs.Machine.{machine};
ghost use Rattle.machine.specs.PlaceA.{longest, machine_a};
ghost use Rattle.machine.specs.Refusal.{found_a};
ghost use Rattle.machine.specs.Lent.{code_of, memory_of, seen, Keeps};
ghost use Rattle.machine_fees.specs.FeeView.{fees_of};
ghost use Rattle.machine_vm.specs.RunView.{Unasked, Lendable, Calls};

use machine::lent::{LentCode, LentMemory, SeenMemory};
use machine::refusal::PlaceA;
use machine::state::VMState;
use machine_fees::fee_table::{LentFees, check_fees_behind};
use machine_place_a::checks::{check_length, check_machine};
use machine_steps::answer::{Ending, Ran};
use machine_steps::steps::steps;

// Place A, by the table's and the log's lengths too.
#[tactic(auto, unfolding(choices::specs::Choice::first_of))]
fn check_lent(
    words: usize,
    bytes: usize,
    state: &VMState,
    code: &LentCode<'_>,
    memory: &SeenMemory<'_>,
) -> Result<(), PlaceA>
    ensures { found_a result ≡ first_of (above_of words longest 1) (first_of (above_of bytes longest 1) (machine_a (machine state.now (code_of code.now) (seen memory.now)))) }
{
    check_length(words)?;
    check_length(bytes)?;
    check_machine(state, code, memory)
}

fn checked(
    recording: bool,
    tabling: bool,
    fees: Option<LentFees<'_>>,
    prices: &mut [u64],
    budget: u64,
    state: VMState,
    code: &LentCode<'_>,
    memory: &mut LentMemory<'_>,
    b: &mut [u8],
    table: &mut [u64],
) -> Ran
    requires { Lendable recording tabling (fees_of fees) b.old table.old prices.old }
    ensures calls { Calls recording tabling (fees_of fees.entry) budget (machine state (code_of code.now) (memory_of memory.old)) b.old table.old result
        (memory_of memory.new) b.new table.new }
    ensures lent { Keeps memory.old memory.new }
{
    let handed = check_lent(table.len(), b.len(), &state, code, &memory.look());
    match check_fees_behind(fees, handed, prices) {
        Ok(()) => steps(
            recording,
            tabling,
            budget,
            state,
            code,
            memory,
            b,
            table,
            fees.and(Some(&*prices)),
        ),
        Err(error) => Ran {
            count: 0,
            ending: Ending::Refused(error),
            state,
            bytes: 0,
            fee: 0,
        },
    }
}

// With records and rows as the marks say, which stand beside their slices as machine_step's `advance` says; a slice that is not asked for has a length of 1, and is not looked at. Without a table there is no price, and no
// array of prices is made.
pub fn call(
    recording: bool,
    tabling: bool,
    fees: Option<LentFees<'_>>,
    budget: u64,
    state: VMState,
    code: &LentCode<'_>,
    memory: &mut LentMemory<'_>,
    b: &mut [u8],
    table: &mut [u64],
) -> Ran
    requires { Unasked recording tabling b.old table.old }
    ensures calls { Calls recording tabling (fees_of fees.entry) budget (machine state (code_of code.now) (memory_of memory.old)) b.old table.old result
        (memory_of memory.new) b.new table.new }
    ensures lent { Keeps memory.old memory.new }
{
    match fees {
        None => {
            let mut none = [0u64; 1];
            checked(
                recording, tabling, None, &mut none, budget, state, code, memory, b, table,
            )
        }
        Some(_) => {
            let mut prices = [0u64; 128];
            checked(
                recording,
                tabling,
                fees,
                &mut prices,
                budget,
                state,
                code,
                memory,
                b,
                table,
            )
        }
    }
}
