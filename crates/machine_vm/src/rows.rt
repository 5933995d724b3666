// trace_rows: steps up to a budget, with their records in a lent log and their rows in a lent table.
ghost use Rattle.machine.specs.Machine.{machine};
ghost use Rattle.machine.specs.Lent.{code_of, memory_of, Keeps};
ghost use Rattle.machine_fees.specs.FeeView.{fees_of};
ghost use Rattle.machine_vm.specs.RunView.{TracesRows};

use crate::call::call;
use machine::lent::{LentCode, LentMemory};
use machine::state::VMState;
use machine_fees::fee_table::LentFees;
use machine_steps::answer::Ran;

// trace_execution, with the row of the processor table of each step that succeeds, taken before it. A table with fewer words than a row is full at once.
pub fn trace_rows(
    fees: Option<LentFees<'_>>,
    budget: u64,
    state: VMState,
    code: &LentCode<'_>,
    memory: &mut LentMemory<'_>,
    b: &mut [u8],
    table: &mut [u64],
) -> Ran
    ensures rows { TracesRows (fees_of fees.entry) budget (machine state (code_of code.now) (memory_of memory.old)) b.old table.old result
        (memory_of memory.new) b.new table.new }
    ensures lent { Keeps memory.old memory.new }
{
    call(true, true, fees, budget, state, code, memory, b, table)
}
