// Arithmetic on u32. Each records its operands for the U32 table; xor under and's opcode.
ghost use Rattle.std.specs.Prelude.{◌≡◌, ℕ, [] as Nil, ◌∷◌, ◌<◌, ◌^◌, ltb};
ghost use Rattle.machine.specs.Machine.{st};
ghost use Rattle.machine.specs.Effect.{acts, recording, u32_only, u32 as called};
ghost use Rattle.machine_effects.specs.EffectView.{u32_of, decision_of};
ghost use Rattle.machine_arithmetic.specs.U32.{IsU32};
ghost use Rattle.choices.specs.Choice.{cond};
ghost use Rattle.machine.specs.Bits.{ones_of, highest_of, both_of, either_of};
ghost use Rattle.machine.specs.Bitwise.{split_of, lt_of, and_of, xor_of, log2_floor_of, pow_of, div_mod_of, pop_count_of};

use field::base;
use machine::refusal::InstructionError;
use machine_effects::effect::{Decided, Effect, U32Call, U32Calls};
use machine_isa::few::Few;
use machine_isa::op_stack::Top;

pub fn as_u32(a: u64) -> Result<u32, InstructionError>
    ensures { IsU32 a result }
{
    u32::try_from(a).map_err(|_| InstructionError::FailedU32Conversion(a))
}

// Takes words off, puts one on, and records one call.
fn put(pops: usize, a: u64, call: U32Call) -> Decided
    ensures { decision_of result ≡ acts (recording (u32_of call ∷ Nil) pops (a ∷ Nil)) }
{
    Ok(Effect::puts_u32(pops, Few::of([a]), U32Calls::One(call)))
}

pub fn split(w: &Top) -> Decided
    ensures { decision_of result ≡ split_of w.now.words }
{
    let a = w.st(0);
    let hi = base::high(a);
    let lo = base::low(a);
    let call = U32Call::new(4, lo, hi);
    Ok(Effect::puts_u32(1, Few::of([hi, lo]), U32Calls::One(call)))
}

// Two u32 are taken off, what an operation makes of them is put on, and both are recorded.
fn of_two<F: FnOnce(u32, u32) -> u64>(w: &Top, opcode: u64, operation: F) -> Decided
    requires { F.IsAlwaysCallable operation }
    ensures { (made : ℕ) × (st w.now.words 0 < 2 ^ 32 → st w.now.words 1 < 2 ^ 32 → F.post operation (st w.now.words 0) (st w.now.words 1) made)
        × (decision_of result ≡ u32_only (st w.now.words 0) (u32_only (st w.now.words 1) (acts (recording (called opcode (st w.now.words 0) (st w.now.words 1) ∷ Nil) 2 (made ∷ Nil))))) }
{
    let a = as_u32(w.st(0))?;
    let b = as_u32(w.st(1))?;
    let call = U32Call::new(opcode, u64::from(a), u64::from(b));
    put(2, operation(a, b), call)
}

pub fn lt(w: &Top) -> Decided
    ensures { decision_of result ≡ lt_of w.now.words }
{
    of_two(
        w,
        6,
        |a: u32, b: u32| -> u64
            ensures { result ≡ cond (ltb a b) 1 0 }
        { u64::from(a < b) },
    )
}

pub fn and(w: &Top) -> Decided
    ensures { decision_of result ≡ and_of w.now.words }
{
    of_two(
        w,
        14,
        |a: u32, b: u32| -> u64
            ensures { result ≡ both_of 32 a b }
        { u64::from(a & b) },
    )
}

pub fn xor(w: &Top) -> Decided
    ensures { decision_of result ≡ xor_of w.now.words }
{
    of_two(
        w,
        14,
        |a: u32, b: u32| -> u64
            ensures { result ≡ either_of 32 a b }
        { u64::from(a ^ b) },
    )
}

// The place of the highest digit that is 1.
fn highest(a: u32) -> u64
    requires { 0 < a }
    ensures { result ≡ highest_of 31 a }
{
    u64::from(31 - a.leading_zeros())
}

pub fn log_2_floor(w: &Top) -> Decided
    ensures { decision_of result ≡ log2_floor_of w.now.words }
{
    let a = as_u32(w.st(0))?;
    if a == 0 {
        return Err(InstructionError::LogarithmOfZero.into());
    }
    put(1, highest(a), U32Call::new(12, u64::from(a), 0))
}

// The base may be any word.
pub fn pow(w: &Top) -> Decided
    ensures { decision_of result ≡ pow_of w.now.words }
{
    let b = w.st(0);
    let e = as_u32(w.st(1))?;
    let exponent = u64::from(e);
    put(2, base::mod_pow(b, exponent), U32Call::new(30, b, exponent))
}

// ST 0 is divided by ST 1; quotient and remainder come with the calls that show them.
pub fn div_mod(w: &Top) -> Decided
    ensures { decision_of result ≡ div_mod_of w.now.words }
{
    let above = w.st(0);
    let below = w.st(1);
    let n = as_u32(above)?;
    let d = as_u32(below)?;
    if d == 0 {
        return Err(InstructionError::DivisionByZero.into());
    }
    let q = u64::from(n / d);
    let r = u64::from(n % d);
    let less = U32Call::new(6, r, below);
    let whole = U32Call::new(4, above, q);
    Ok(Effect::puts_u32(2, Few::of([q, r]), U32Calls::Two(less, whole)))
}

// How many digits are 1.
fn ones(a: u32) -> u64
    ensures { result ≡ ones_of 32 a }
{
    u64::from(a.count_ones())
}

pub fn pop_count(w: &Top) -> Decided
    ensures { decision_of result ≡ pop_count_of w.now.words }
{
    let a = as_u32(w.st(0))?;
    put(1, ones(a), U32Call::new(28, u64::from(a), 0))
}
