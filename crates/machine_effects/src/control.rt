// The instructions that say what comes next.
ghost use Rattle.std.specs.Prelude.{◌≡◌, ◌<◌, length};
ghost use Rattle.field.specs.Base.{p};
ghost use Rattle.machine_effects.specs.EffectView.{decision_of, jump_top_of};
ghost use Rattle.machine.specs.Control.{halt_of, nop_of, skiz_of, call_of, return_of, recurse_of, recurse_or_return_of, assert_of};

use crate::effect::{Decided, Effect, JumpChange, JumpEntry, Refused};
use machine::refusal::InstructionError;
use machine_isa::instruction;
use machine_isa::op_stack::Top;

pub fn halt() -> Decided
    ensures { decision_of result ≡ halt_of }
{
    Ok(Effect {
        halts: true,
        ..Effect::takes_off(0)
    })
}

pub fn nop() -> Decided
    ensures { decision_of result ≡ nop_of }
{
    Ok(Effect::takes_off(0))
}

// On 0 the instruction in the next slot is skipped. Where there is no such slot the word stays dropped.
pub fn skiz(opcodes: &[u64], pointer: u64, w: &Top) -> Decided
    requires { pointer < length opcodes.now }
    ensures { decision_of result ≡ skiz_of opcodes.now pointer w.now.words }
{
    if w.st(0) != 0 {
        return Ok(Effect::takes_off(1));
    }
    let next = pointer + 1;
    match opcodes.get(next as usize) {
        Some(opcode) => Ok(Effect::goes(1, next + instruction::size(*opcode))),
        None => Err(Refused::Dropped(InstructionError::InstructionPointerOverflow)),
    }
}

pub fn call(pointer: u64, destination: u64) -> Decided
    requires { pointer < p }
    ensures { decision_of result ≡ call_of pointer destination }
{
    let entry = JumpEntry {
        origin: pointer + 2,
        destination,
    };
    Ok(Effect {
        jump: JumpChange::Pushes(entry),
        ..Effect::goes(0, destination)
    })
}

// `top` is the jump stack's last entry.
pub fn return_from_call(top: Option<JumpEntry>) -> Decided
    ensures { decision_of result ≡ return_of (jump_top_of top) }
{
    let entry = top.ok_or(InstructionError::JumpStackIsEmpty)?;
    Ok(Effect {
        jump: JumpChange::Pops,
        ..Effect::goes(0, entry.origin)
    })
}

pub fn recurse(top: Option<JumpEntry>) -> Decided
    ensures { decision_of result ≡ recurse_of (jump_top_of top) }
{
    let entry = top.ok_or(InstructionError::JumpStackIsEmpty)?;
    Ok(Effect::goes(0, entry.destination))
}

pub fn recurse_or_return(w: &Top, top: Option<JumpEntry>) -> Decided
    ensures { decision_of result ≡ recurse_or_return_of w.now.words (jump_top_of top) }
{
    if w.st(5) == w.st(6) {
        return_from_call(top)
    } else {
        recurse(top)
    }
}

pub fn assert(w: &Top) -> Decided
    ensures { decision_of result ≡ assert_of w.now.words }
{
    let a = w.st(0);
    if a == 1 {
        Ok(Effect::takes_off(1))
    } else {
        Err(InstructionError::AssertionFailed(a).into())
    }
}
