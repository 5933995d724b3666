// run over numbers and slices.
ghost use Rattle.std.specs.Prelude.{◌≡◌};
ghost use Rattle.machine.specs.Lent.{code_of, memory_of, Keeps};
ghost use Rattle.machine_fees.specs.FeeView.{fees_of};
ghost use Rattle.exports_words.specs.Calls.{called};
ghost use Rattle.exports_calls.specs.RunCall.{run_call};

use exports_words::fits::fits;
use exports_words::registers::write_registers;
use exports_words::report::{answer_words, run_report, turn_down, write_answer};
use machine::lent::{LentCode, LentMemory};
use machine_fees::fee_table::LentFees;
use machine_vm::run::run;

// A refused run keeps the steps before the refused one.
pub fn run_call(
    registers: &mut [u64],
    answer: &mut [u64],
    fees: Option<LentFees<'_>>,
    budget: u64,
    code: &LentCode<'_>,
    memory: &mut LentMemory<'_>,
) -> u64
    ensures gives { called result registers.new answer.new (memory_of memory.new)
        ≡ run_call (fees_of fees.entry) budget registers.old answer.old (code_of code.now) (memory_of memory.old) }
    ensures lent { Keeps memory.old memory.new }
{
    let n = answer_words(&fees);
    let state = match fits(registers, answer, n) {
        Some(state) => state,
        None => {
            turn_down(answer, n);
            return 1;
        }
    };
    let r = run(fees, budget, state, code, memory);
    let report = run_report(r.ending, r.count, r.bytes, r.fee);
    write_registers(registers, r.state);
    write_answer(answer, report);
    report.number
}
