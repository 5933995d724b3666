// The helper call over numbers and slices.
ghost use Rattle.std.specs.Prelude.{◌≡◌};
ghost use Rattle.machine.specs.Lent.{code_of, seen};
ghost use Rattle.machine.specs.Given.{given};
ghost use Rattle.exports_calls.specs.GivenCall.{helper_call};

use crate::given::{write_given, zero_words};
use exports_words::fits::fits;
use machine::lent::{LentCode, SeenMemory};
use machine_open::helper_variables::helper_variables;

// Refused, the helpers are zeros.
pub fn helper_call(
    registers: &[u64],
    helpers: &mut [u64],
    code: &LentCode<'_>,
    memory: &SeenMemory<'_>,
) -> u64
    ensures { given result helpers.new ≡ helper_call registers.now helpers.old (code_of code.now) (seen memory.now) }
{
    match fits(registers, helpers, 6) {
        Some(state) => write_given(helpers, helper_variables(state, code, memory)),
        None => {
            zero_words(helpers, 6);
            1
        }
    }
}
