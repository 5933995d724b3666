// What an instruction is handed of the machine that stands on a slot.
ghost use Rattle.std.specs.Prelude.{◌≡◌, ◌≤◌, length, drop};
ghost use Rattle.machine.specs.Machine.{machine};
ghost use Rattle.machine.specs.Words.{Words};
ghost use Rattle.machine.specs.Decide.{opcode_of};
ghost use Rattle.machine.specs.Lent.{code_of, seen};
ghost use Rattle.machine_effects.specs.EffectView.{jump_top_of};
ghost use Rattle.machine_decide.specs.DecideView.{last_of, StandsOn, HashesOn, Reliable, InSlot, Shows, ShowsHash};

use machine::lent::{LentCode, SeenMemory};
use machine::state::VMState;
use machine_effects::effect::JumpEntry;
use machine_isa::op_stack::Top;
use machine_ram::ram::Ram;

// All that an instruction looks at that does not hash: the slot, the top of the op stack, the program, what is left of both inputs, the jump stack's last
// entry, and RAM.
#[derive(Clone, Copy)]
pub struct Handed<'a> {
    pub opcode: u64,
    pub argument: u64,
    pub top: Top,
    pub pointer: u64,
    pub opcodes: &'a [u64],
    pub public: &'a [u64],
    pub secret: &'a [u64],
    pub jump: Option<JumpEntry>,
    pub ram: Ram<'a>,
}

// All that one looks at that hashes, but for the sponge.
#[derive(Clone, Copy)]
pub struct HandedHash<'a> {
    pub opcode: u64,
    pub top: Top,
    pub digests: &'a [u64],
    pub ram: Ram<'a>,
}

// The jump stack's last entry.
pub fn last_entry(memory: &SeenMemory<'_>, jumps: usize) -> Option<JumpEntry>
    requires { (jumps ≤ length memory.now.origins.now) × (jumps ≤ length memory.now.destinations.now) }
    ensures { jump_top_of result ≡ last_of memory.now.origins.now memory.now.destinations.now jumps }
{
    let top = jumps.checked_sub(1)?;
    Some(JumpEntry {
        origin: memory.origins[top],
        destination: memory.destinations[top],
    })
}

// What is left of an input.
fn left(input: &[u64], taken: usize) -> &[u64]
    requires { taken ≤ length input.now }
    ensures { result.now ≡ drop taken input.now }
{
    &input[taken..]
}

pub fn hand_over<'a>(state: &VMState, code: &LentCode<'a>, memory: &SeenMemory<'a>) -> Handed<'a>
    requires { StandsOn (machine state.now (code_of code.now) (seen memory.now)) }
    ensures reliable { Reliable result }
    ensures slot { InSlot (machine state.now (code_of code.now) (seen memory.now)) result }
    ensures shows { Shows (machine state.now (code_of code.now) (seen memory.now)) result }
{
    let at = state.pointer as usize;
    let top = Top::of(memory.op_stack, state.depth);
    let public = left(code.public, state.publics);
    let secret = left(code.secret, state.secrets);
    let jump = last_entry(memory, state.jumps);
    let ram = Ram {
        addresses: memory.addresses,
        values: memory.values,
        count: state.cells,
    };
    Handed {
        opcode: code.opcodes[at],
        argument: code.arguments[at],
        top,
        pointer: state.pointer,
        opcodes: code.opcodes,
        public,
        secret,
        jump,
        ram,
    }
}

pub fn hand_over_hash<'a>(
    state: &VMState,
    code: &LentCode<'a>,
    memory: &SeenMemory<'a>,
) -> HandedHash<'a>
    requires { HashesOn (machine state.now (code_of code.now) (seen memory.now)) }
    ensures reliable { Words result.top.words }
    ensures slot { opcode_of (machine state.now (code_of code.now) (seen memory.now)) ≡ result.opcode }
    ensures shows { ShowsHash (machine state.now (code_of code.now) (seen memory.now)) result }
{
    let top = Top::of(memory.op_stack, state.depth);
    let digests = left(code.digests, 5 * state.digests);
    let ram = Ram {
        addresses: memory.addresses,
        values: memory.values,
        count: state.cells,
    };
    HandedHash {
        opcode: code.opcodes[state.pointer as usize],
        top,
        digests,
        ram,
    }
}
