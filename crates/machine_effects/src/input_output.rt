// What is taken from an input: read_io and divine; and write_io.
ghost use Rattle.std.specs.Prelude.{◌≡◌, ◌≤◌};
ghost use Rattle.machine.specs.InputOutput.{read_io_of, write_io_of};
ghost use Rattle.machine.specs.Stack.{divine_of};
ghost use Rattle.machine_effects.specs.EffectView.{decision_of, Taken};

use crate::effect::{Decided, Effect};
use machine::refusal::InstructionError;
use machine_isa::few::Few;
use machine_isa::op_stack::Top;

// The first n words of what is left of an input, where there are so many.
fn first_words(left: &[u64], n: usize) -> Option<Few<16>>
    requires { n ≤ 5 }
    ensures { Taken left.now n result }
{
    Some(Few::from_slice(left.get(..n)?))
}

// read_io and divine differ in the count that goes up and in the error: one function would take both.

// `left` is what is left of the public input.
pub fn read_io(n: usize, left: &[u64]) -> Decided
    requires { n ≤ 5 }
    ensures { decision_of result ≡ read_io_of n left.now }
{
    let empty = InstructionError::EmptyPublicInput(left.len() as u64);
    let words = first_words(left, n).ok_or(empty)?;
    Ok(Effect {
        publics: n,
        ..Effect::puts(0, words)
    })
}

// `left` is what is left of the secret input.
pub fn divine(n: usize, left: &[u64]) -> Decided
    requires { n ≤ 5 }
    ensures { decision_of result ≡ divine_of n left.now }
{
    let empty = InstructionError::EmptySecretInput(left.len() as u64);
    let words = first_words(left, n).ok_or(empty)?;
    Ok(Effect {
        secrets: n,
        ..Effect::puts(0, words)
    })
}

// ST 0 goes out first.
pub fn write_io(w: &Top, n: usize) -> Decided
    requires { n ≤ 5 }
    ensures { decision_of result ≡ write_io_of w.now.words n }
{
    let output = Few {
        words: [w.st(0), w.st(1), w.st(2), w.st(3), w.st(4)],
        count: n,
    };
    Ok(Effect {
        output,
        ..Effect::takes_off(n)
    })
}
