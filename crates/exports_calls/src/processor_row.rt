// The row call over numbers and slices.
ghost use Rattle.std.specs.Prelude.{◌≡◌};
ghost use Rattle.machine.specs.Lent.{code_of, seen};
ghost use Rattle.machine.specs.Given.{given};
ghost use Rattle.exports_calls.specs.GivenCall.{row_call};

use crate::given::{write_given, zero_words};
use exports_words::fits::fits;
use machine::lent::{LentCode, SeenMemory};
use machine_open::processor_row::processor_row;

// Refused, the row is zeros.
pub fn row_call(
    registers: &[u64],
    row: &mut [u64],
    code: &LentCode<'_>,
    memory: &SeenMemory<'_>,
) -> u64
    ensures { given result row.new ≡ row_call registers.now row.old (code_of code.now) (seen memory.now) }
{
    match fits(registers, row, 37) {
        Some(state) => write_given(row, processor_row(state, code, memory)),
        None => {
            zero_words(row, 37);
            1
        }
    }
}
