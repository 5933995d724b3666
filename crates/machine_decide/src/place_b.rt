// Place B: what turns an instruction down before it is looked at.
ghost use Rattle.std.specs.Prelude.{◌≡◌};
ghost use Rattle.machine.specs.Refusal.{found_b};
ghost use Rattle.machine_decide.specs.PlaceBView.{place_b, Slots};

use machine::lent::LentCode;
use machine::refusal::PlaceB;
use machine::state::VMState;
use machine_isa::instruction;

#[inline(always)]
pub fn place_b(state: &VMState, code: &LentCode<'_>) -> Result<(), PlaceB>
    requires { Slots state.now code.now.opcodes.now code.now.arguments.now }
    ensures { found_b result ≡ place_b state.now code.now.opcodes.now code.now.arguments.now }
{
    if state.halted {
        return Err(PlaceB::MachineHalted);
    }
    let at = state.pointer as usize;
    if at >= code.opcodes.len() {
        return Err(PlaceB::InstructionPointerOverflow);
    }
    let opcode = code.opcodes[at];
    let argument = code.arguments[at];
    let (grown, shrunk) = instruction::depth_change(opcode, argument);
    if state.depth + (grown as usize) < 16 + shrunk as usize {
        Err(PlaceB::OpStackTooShallow)
    } else {
        Ok(())
    }
}
