// step over numbers and slices.
ghost use Rattle.std.specs.Prelude.{◌≡◌};
ghost use Rattle.machine.specs.Lent.{code_of, memory_of, Keeps};
ghost use Rattle.machine_fees.specs.FeeView.{fees_of};
ghost use Rattle.exports_words.specs.Calls.{called, recorded};
ghost use Rattle.exports_calls.specs.StepCall.{step_call};

use exports_words::fits::fits;
use exports_words::registers::write_registers;
use exports_words::report::{answer_words, step_report, turn_down, write_answer};
use machine::lent::{LentCode, LentMemory};
use machine_fees::fee_table::LentFees;
use machine_vm::step::step;

// The step's records are the first bytes of calls. A refused step changes nothing, but that skiz on 0 with nothing next has dropped its word.
pub fn step_call(
    registers: &mut [u64],
    answer: &mut [u64],
    fees: Option<LentFees<'_>>,
    code: &LentCode<'_>,
    memory: &mut LentMemory<'_>,
    calls: &mut [u8],
) -> u64
    ensures gives { recorded (called result registers.new answer.new (memory_of memory.new)) calls.new
        ≡ step_call (fees_of fees.entry) registers.old answer.old (code_of code.now) (memory_of memory.old) calls.old }
    ensures lent { Keeps memory.old memory.new }
{
    let n = answer_words(&fees);
    let state = match fits(registers, answer, n) {
        Some(state) => state,
        None => {
            turn_down(answer, n);
            return 1;
        }
    };
    let priced = step(fees, state, code, memory, calls);
    let r = priced.stepped;
    let report = step_report(r.answer, r.bytes, priced.row);
    write_registers(registers, r.state);
    write_answer(answer, report);
    report.number
}
