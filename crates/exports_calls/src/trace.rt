// trace_execution over numbers and slices.
ghost use Rattle.std.specs.Prelude.{◌≡◌};
ghost use Rattle.machine.specs.Lent.{code_of, memory_of, Keeps};
ghost use Rattle.machine_fees.specs.FeeView.{fees_of};
ghost use Rattle.exports_words.specs.Calls.{called, recorded};
ghost use Rattle.exports_calls.specs.RunCall.{trace_call};

use exports_words::fits::fits;
use exports_words::registers::write_registers;
use exports_words::report::{answer_words, run_report, turn_down, write_answer};
use machine::lent::{LentCode, LentMemory};
use machine_fees::fee_table::LentFees;
use machine_vm::trace::trace_execution;

// The records of the steps are the first bytes of calls, each step's behind the last one's.
pub fn trace_call(
    registers: &mut [u64],
    answer: &mut [u64],
    fees: Option<LentFees<'_>>,
    budget: u64,
    code: &LentCode<'_>,
    memory: &mut LentMemory<'_>,
    calls: &mut [u8],
) -> u64
    ensures gives { recorded (called result registers.new answer.new (memory_of memory.new)) calls.new
        ≡ trace_call (fees_of fees.entry) budget registers.old answer.old (code_of code.now) (memory_of memory.old) calls.old }
    ensures lent { Keeps memory.old memory.new }
{
    let n = answer_words(&fees);
    let state = match fits(registers, answer, n) {
        Some(state) => state,
        None => {
            turn_down(answer, n);
            return 1;
        }
    };
    let r = trace_execution(fees, budget, state, code, memory, calls);
    let report = run_report(r.ending, r.count, r.bytes, r.fee);
    write_registers(registers, r.state);
    write_answer(answer, report);
    report.number
}
