// The helper call: place A, then the six helper variables.
ghost use Rattle.std.specs.Prelude.{◌≡◌};
ghost use Rattle.machine.specs.Machine.{machine};
ghost use Rattle.machine.specs.Lent.{code_of, seen};
ghost use Rattle.machine.specs.HelperVariables.{helper_variables_of};
ghost use Rattle.machine_open.specs.GivenView.{given_in};

use machine::lent::{LentCode, SeenMemory};
use machine::refusal::PlaceA;
use machine::state::VMState;
use machine_helpers::helper_variables::helpers;
use machine_place_a::checks::check_machine;

// Behind place A the machine is sound, which is what helpers relies on.
pub fn helper_variables(
    state: VMState,
    code: &LentCode<'_>,
    memory: &SeenMemory<'_>,
) -> Result<[u64; 6], PlaceA>
    ensures { given_in 6 result ≡ helper_variables_of (machine state (code_of code.now) (seen memory.now)) }
{
    check_machine(&state, code, memory)?;
    Ok(helpers(&state, code, memory))
}
