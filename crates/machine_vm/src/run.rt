// run: steps up to a budget, that record nothing.
ghost use Rattle.machine.specs.Machine.{machine};
ghost use Rattle.machine.specs.Lent.{code_of, memory_of, Keeps};
ghost use Rattle.machine_fees.specs.FeeView.{fees_of};
ghost use Rattle.machine_vm.specs.RunView.{Runs};

use crate::call::call;
use machine::lent::{LentCode, LentMemory};
use machine::state::VMState;
use machine_fees::fee_table::LentFees;
use machine_steps::answer::Ran;

// A refused run keeps the steps before the refused one. With a fee table it also says what the steps cost.
pub fn run(
    fees: Option<LentFees<'_>>,
    budget: u64,
    state: VMState,
    code: &LentCode<'_>,
    memory: &mut LentMemory<'_>,
) -> Ran
    ensures runs { Runs (fees_of fees.entry) budget (machine state (code_of code.now) (memory_of memory.old)) result (memory_of memory.new) }
    ensures lent { Keeps memory.old memory.new }
{
    let mut no_log = [0u8; 1];
    let mut no_table = [0u64; 1];
    call(
        false,
        false,
        fees,
        budget,
        state,
        code,
        memory,
        &mut no_log,
        &mut no_table,
    )
}
