// The row call: place A, then the row of the processor table.
ghost use Rattle.std.specs.Prelude.{◌≡◌};
ghost use Rattle.machine.specs.Machine.{machine};
ghost use Rattle.machine.specs.Lent.{code_of, seen};
ghost use Rattle.machine.specs.ProcessorRow.{processor_row_of};
ghost use Rattle.machine_open.specs.GivenView.{given_in};

use machine::lent::{LentCode, SeenMemory};
use machine::refusal::PlaceA;
use machine::state::VMState;
use machine_place_a::checks::check_machine;
use machine_rows::processor_row::write_row;

// Behind place A the machine is sound, which is what write_row relies on. As helper_variables: one function for both would be handed the words' function, with its
// clauses.
pub fn processor_row(
    state: VMState,
    code: &LentCode<'_>,
    memory: &SeenMemory<'_>,
) -> Result<[u64; 37], PlaceA>
    ensures { given_in 37 result ≡ processor_row_of (machine state (code_of code.now) (seen memory.now)) }
{
    check_machine(&state, code, memory)?;
    let mut words = [0; 37];
    write_row(&mut words, &state, code, memory);
    Ok(words)
}
