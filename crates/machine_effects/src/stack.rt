// The instructions that move words of the op stack. Those that take a word at a place of their argument take it from a copy: where they are compiled into a
// loop, the sixteen words that others take by their names need not lie side by side for them.
ghost use Rattle.std.specs.Prelude.{◌≡◌, ◌<◌};
ghost use Rattle.machine_effects.specs.EffectView.{decision_of};
ghost use Rattle.machine.specs.Stack.{push_of, pop_of, pick_of, place_of, dup_of, swap_of};

use crate::effect::{Decided, Effect};
use machine_isa::few::Few;
use machine_isa::op_stack::Top;

pub fn push(a: u64) -> Decided
    ensures { decision_of result ≡ push_of a }
{
    Ok(Effect::puts(0, Few::of([a])))
}

pub fn pop(n: usize) -> Decided
    ensures { decision_of result ≡ pop_of n }
{
    Ok(Effect::takes_off(n))
}

// The i words above ST i move down by one.
pub fn pick(w: &Top, i: usize) -> Decided
    requires { i < 16 }
    ensures { decision_of result ≡ pick_of w.now.words i }
{
    let top = *w;
    let mut words = w.words;
    let j = 15 - i;
    words.copy_within(j + 1..16, j);
    words[15] = top.st(i);
    Ok(Effect::puts(16, Few::of(words)))
}

// The i words from ST i up move up by one.
pub fn place(w: &Top, i: usize) -> Decided
    requires { i < 16 }
    ensures { decision_of result ≡ place_of w.now.words i }
{
    let top = *w;
    let mut words = w.words;
    let j = 15 - i;
    words.copy_within(j..15, j + 1);
    words[j] = top.st(0);
    Ok(Effect::puts(16, Few::of(words)))
}

pub fn dup(w: &Top, i: usize) -> Decided
    requires { i < 16 }
    ensures { decision_of result ≡ dup_of w.now.words i }
{
    let top = *w;
    Ok(Effect::puts(0, Few::of([top.st(i)])))
}

pub fn swap(w: &Top, i: usize) -> Decided
    requires { i < 16 }
    ensures { decision_of result ≡ swap_of w.now.words i }
{
    let top = *w;
    let mut words = w.words;
    words[15] = top.st(i);
    words[15 - i] = top.st(0);
    Ok(Effect::puts(16, Few::of(words)))
}
