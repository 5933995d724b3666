// Arithmetic on words and on extension words.
ghost use Rattle.std.specs.Prelude.{◌≡◌, ◌<◌, ◌+◌};
ghost use Rattle.field.specs.Base.{p};
ghost use Rattle.field.specs.Extension.{WordsX};
ghost use Rattle.machine.specs.Words.{Words};
ghost use Rattle.machine.specs.Effect.{acts, puts};
ghost use Rattle.machine_effects.specs.EffectView.{decision_of};
ghost use Rattle.machine.specs.Arithmetic.{add_of, addi_of, mul_of, invert_of, eq_of, xst, words_x, xx_add_of, xx_mul_of, x_invert_of, xb_mul_of};

use field::base;
use field::extension::XFieldElement;
use machine::refusal::InstructionError;
use machine_effects::effect::{Decided, Effect};
use machine_isa::few::Few;
use machine_isa::op_stack::Top;

pub fn add(w: &Top) -> Decided
    requires { Words w.now.words }
    ensures { decision_of result ≡ add_of w.now.words }
{
    Ok(Effect::puts(2, Few::of([base::add(w.word(0), w.word(1))])))
}

pub fn addi(w: &Top, a: u64) -> Decided
    requires { (Words w.now.words) × (a < p) }
    ensures { decision_of result ≡ addi_of w.now.words a }
{
    Ok(Effect::puts(1, Few::of([base::add(w.word(0), a)])))
}

pub fn mul(w: &Top) -> Decided
    ensures { decision_of result ≡ mul_of w.now.words }
{
    Ok(Effect::puts(2, Few::of([base::mul(w.st(0), w.st(1))])))
}

pub fn invert(w: &Top) -> Decided
    requires { Words w.now.words }
    ensures { decision_of result ≡ invert_of w.now.words }
{
    let a = w.word(0);
    if a == 0 {
        return Err(InstructionError::InverseOfZero.into());
    }
    Ok(Effect::puts(1, Few::of([base::inverse_or_zero(a)])))
}

pub fn eq(w: &Top) -> Decided
    ensures { decision_of result ≡ eq_of w.now.words }
{
    Ok(Effect::puts(2, Few::of([u64::from(w.st(0) == w.st(1))])))
}

// The extension word in ST i to ST i + 2.
pub fn element(w: &Top, i: usize) -> XFieldElement
    requires { (Words w.now.words) × (i < 14) }
    ensures is { result ≡ xst w.now.words i }
    ensures words { WordsX result }
{
    XFieldElement {
        c0: w.word(i),
        c1: w.word(i + 1),
        c2: w.word(i + 2),
    }
}

// Takes words off and puts an extension word on.
fn put(pops: usize, x: XFieldElement) -> Decided
    ensures { decision_of result ≡ acts (puts pops (words_x x)) }
{
    Ok(Effect::puts(pops, Few::of([x.c2, x.c1, x.c0])))
}

// A sum and a product are a line each: a closure for the operation would be no shorter.
pub fn xx_add(w: &Top) -> Decided
    requires { Words w.now.words }
    ensures { decision_of result ≡ xx_add_of w.now.words }
{
    put(6, element(w, 0) + element(w, 3))
}

pub fn xx_mul(w: &Top) -> Decided
    requires { Words w.now.words }
    ensures { decision_of result ≡ xx_mul_of w.now.words }
{
    put(6, element(w, 0) * element(w, 3))
}

pub fn x_invert(w: &Top) -> Decided
    requires { Words w.now.words }
    ensures { decision_of result ≡ x_invert_of w.now.words }
{
    let x = element(w, 0);
    if x == XFieldElement::from(0) {
        return Err(InstructionError::InverseOfZero.into());
    }
    put(3, x.inverse_or_zero())
}

pub fn xb_mul(w: &Top) -> Decided
    requires { Words w.now.words }
    ensures { decision_of result ≡ xb_mul_of w.now.words }
{
    put(4, element(w, 1).scale(w.word(0)))
}
