// A quick step: one that changes the op stack, the pointer and the clock alone, as most steps of a run do. Its effect is not handed on, so
// nothing but what it needs is made of it.
ghost use Rattle.std.specs.Prelude.{◌≡◌, []};
ghost use Rattle.machine.specs.Machine.{memory, machine};
ghost use Rattle.machine.specs.Lent.{code_of, memory_of, seen, Keeps};
ghost use Rattle.machine_decide.specs.DecideView.{Reliable};
ghost use Rattle.machine_quick.specs.QuickView.{ActedQuick, Quiet, Changing, Changed, lent_beside, Walking, Quicked};

use machine::lent::{LentCode, LentMemory, SeenMemory};
use machine::refusal::{InstructionError, PlaceA};
use machine::state::VMState;
use machine_arithmetic::arithmetic;
use machine_decide::handed::{Handed, hand_over};
use machine_decide::place_b::place_b;
use machine_effects::effect::{Decided, Effect, JumpChange, Refused, U32Calls};
use machine_effects::{control, stack};
use machine_isa::op_stack::apply;
use machine_step::advance::next;

// Where pointer and depth are after a quick step.
#[derive(Clone, Copy, PartialEq, Eq, Debug)]
pub struct QuickStep {
    pub pointer: u64,
    pub depth: usize,
}

// The memory that a quick step only looks at: jump stack and RAM. The output it does not look at.
#[derive(Clone, Copy)]
pub struct Beside<'a> {
    pub origins: &'a [u64],
    pub destinations: &'a [u64],
    pub addresses: &'a [u64],
    pub values: &'a [u64],
}

impl Beside<'_> {
    fn look<'b>(&'b self, op_stack: &'b [u64]) -> SeenMemory<'b>
        ensures { seen result ≡ lent_beside op_stack.now self.now }
    {
        SeenMemory {
            op_stack,
            origins: self.origins,
            destinations: self.destinations,
            addresses: self.addresses,
            values: self.values,
            output: &[],
        }
    }
}

// The instructions that are tried. A refusal, of any other instruction too, is for a step that is not quick.
fn act(h: &Handed<'_>) -> Decided
    requires { Reliable h.now }
    ensures { ActedQuick h.now result }
{
    let argument = h.argument;
    let n = argument as usize;
    match h.opcode {
        3 => stack::pop(n),
        1 => stack::push(argument),
        17 => stack::pick(&h.top, n),
        25 => stack::place(&h.top, n),
        33 => stack::dup(&h.top, n),
        41 => stack::swap(&h.top, n),
        8 => control::nop(),
        2 => control::skiz(h.opcodes, h.pointer, &h.top),
        24 => control::recurse(h.jump),
        10 => control::assert(&h.top),
        42 => arithmetic::add(&h.top),
        65 => arithmetic::addi(&h.top, argument),
        50 => arithmetic::mul(&h.top),
        58 => arithmetic::eq(&h.top),
        _ => Err(Refused::Kept(InstructionError::Handed(PlaceA::InvalidOpcode))),
    }
}

// Whether an effect changes the op stack and the pointer alone.
fn quiet(e: &Effect) -> bool
    ensures { Quiet e.now result }
{
    !e.halts
        && e.jump == JumpChange::Stays
        && e.publics == 0
        && e.secrets == 0
        && e.digests == 0
        && e.output.count == 0
        && e.u32s == U32Calls::Zero
        && e.accesses.count == 0
}

// What an effect makes of op stack and pointer, where it changes nothing else and no limit is met.
fn change(state: &VMState, e: &Effect, opcode: u64, op_stack: &mut [u64]) -> Option<QuickStep>
    requires { Changing state.now e.now op_stack.old }
    ensures { Changed state.now e.now opcode op_stack.old result op_stack.new }
{
    let depth = state.depth - e.pops + e.words.count;
    if op_stack.len() < depth {
        return None;
    }
    if 4294967294 < state.clock {
        return None;
    }
    if !quiet(e) {
        return None;
    }
    let words = e.words;
    apply(op_stack, state.depth, e.pops, &words);
    Some(QuickStep {
        pointer: next(e.next, state.pointer, opcode),
        depth: depth,
    })
}

// A quick step of a sound machine that is not halted, where there is one.
pub fn quick_beside(
    state: &VMState,
    code: &LentCode<'_>,
    op_stack: &mut [u64],
    beside: &Beside<'_>,
) -> Option<QuickStep>
    requires { Walking (machine state.now (code_of code.now) (lent_beside op_stack.old beside.now)) }
    ensures { Quicked (machine state.now (code_of code.now) (lent_beside op_stack.old beside.now)) result (lent_beside op_stack.new beside.now) }
{
    if let Err(_) = place_b(state, code) {
        return None;
    }
    let opcode = code.opcodes[state.pointer as usize];
    match act(&hand_over(state, code, &beside.look(op_stack))) {
        Ok(effect) => change(state, &effect, opcode, op_stack),
        Err(_) => None,
    }
}

// The same of memory slice by slice, each lent to change: of a struct whose slices may change, the borrow checker lends no slice to be looked at beside one
// that is lent to change.
fn quick_of(
    state: &VMState,
    code: &LentCode<'_>,
    op_stack: &mut [u64],
    origins: &mut [u64],
    destinations: &mut [u64],
    addresses: &mut [u64],
    values: &mut [u64],
) -> Option<QuickStep>
    requires { Walking (machine state.now (code_of code.now) (memory op_stack.old origins.old destinations.old addresses.old values.old [])) }
    ensures { Quicked (machine state.now (code_of code.now) (memory op_stack.old origins.old destinations.old addresses.old values.old [])) result (memory op_stack.new origins.new destinations.new addresses.new values.new []) }
{
    let beside = Beside {
        origins: &*origins,
        destinations: &*destinations,
        addresses: &*addresses,
        values: &*values,
    };
    quick_beside(state, code, op_stack, &beside)
}

// The same of memory as it is lent.
pub fn quick(state: &VMState, code: &LentCode<'_>, memory: &mut LentMemory<'_>) -> Option<QuickStep>
    requires { Walking (machine state.now (code_of code.now) (memory_of memory.old)) }
    ensures quicked { Quicked (machine state.now (code_of code.now) (memory_of memory.old)) result (memory_of memory.new) }
    ensures lent { Keeps memory.old memory.new }
{
    quick_of(
        state,
        code,
        memory.op_stack,
        memory.origins,
        memory.destinations,
        memory.addresses,
        memory.values,
    )
}

#[cfg(test)]
mod tests {
    use super::*;
    use std::test::Fail;
    use tip5::sponge::Sponge;

    // Slot 0 is next, and the op stack has its sixteen words.
    const OPENED: VMState = VMState {
        clock: 0,
        pointer: 0,
        depth: 16,
        jumps: 0,
        cells: 0,
        outputs: 0,
        publics: 0,
        secrets: 0,
        digests: 0,
        sponge: Sponge {
            words: [0; 16],
            set: false,
        },
        halted: false,
        revision: 1,
    };

    // push 7 takes two slots and puts 7 on.
    #[test]
    fn takes_a_push(rt: HostRuntime) -> Result<(), Fail> {
        let code = LentCode {
            opcodes: &[1, 1],
            arguments: &[7, 7],
            public: &[],
            secret: &[],
            digests: &[],
        };
        let mut op_stack = [0u64; 17];
        let mut memory = LentMemory {
            op_stack: &mut op_stack,
            origins: &mut [],
            destinations: &mut [],
            addresses: &mut [],
            values: &mut [],
            output: &mut [],
        };
        let pushed = QuickStep {
            pointer: 2,
            depth: 17,
        };
        assert_eq!(rt; quick(&OPENED, &code, &mut memory), Some(pushed));
        assert_eq!(rt; op_stack[15], 0);
        assert_eq!(rt; op_stack[16], 7);
        Ok(())
    }

    // halt is no quick step.
    #[test]
    fn leaves_a_halt(rt: HostRuntime) -> Result<(), Fail> {
        let code = LentCode {
            opcodes: &[0],
            arguments: &[0],
            public: &[],
            secret: &[],
            digests: &[],
        };
        let mut op_stack = [0u64; 16];
        let mut memory = LentMemory {
            op_stack: &mut op_stack,
            origins: &mut [],
            destinations: &mut [],
            addresses: &mut [],
            values: &mut [],
            output: &mut [],
        };
        assert_eq!(rt; quick(&OPENED, &code, &mut memory), None);
        Ok(())
    }
}
