// trace_execution: steps up to a budget, with their records in a lent log.
ghost use Rattle.machine.specs.Machine.{machine};
ghost use Rattle.machine.specs.Lent.{code_of, memory_of, Keeps};
ghost use Rattle.machine_fees.specs.FeeView.{fees_of};
ghost use Rattle.machine_vm.specs.RunView.{Traces};

use crate::call::call;
use machine::lent::{LentCode, LentMemory};
use machine::state::VMState;
use machine_fees::fee_table::LentFees;
use machine_steps::answer::Ran;

// Its log is the joined records of as many steps. A log with fewer bytes than a step may write is full at once. With a fee table it also says what the
// steps cost.
pub fn trace_execution(
    fees: Option<LentFees<'_>>,
    budget: u64,
    state: VMState,
    code: &LentCode<'_>,
    memory: &mut LentMemory<'_>,
    b: &mut [u8],
) -> Ran
    ensures traces { Traces (fees_of fees.entry) budget (machine state (code_of code.now) (memory_of memory.old)) b.old result (memory_of memory.new) b.new }
    ensures lent { Keeps memory.old memory.new }
{
    let mut no_table = [0u64; 1];
    call(
        true,
        false,
        fees,
        budget,
        state,
        code,
        memory,
        b,
        &mut no_table,
    )
}
