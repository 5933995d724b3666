// The instructions that hash with Tip5, and assert_vector. What the hashing ones do carries a trace, so they have a struct of
// their own: the other instructions' effects stay small.
ghost use Rattle.std.specs.Prelude.{◌≡◌, ◌∷◌, ◌++◌, ◌<◌, [] as Nil, take, drop};
ghost use Rattle.field.specs.Base.{p};
ghost use Rattle.machine.specs.Machine.{st};
ghost use Rattle.machine.specs.Effect.{recording};
ghost use Rattle.machine.specs.Hashing.{from_top, last_state, reversed, hash_of, sponge_init_of, sponge_absorb_of, sponge_absorb_mem_of, sponge_squeeze_of, assert_vector_of};
ghost use Rattle.machine_ram.specs.LentCells.{cells_of};
ghost use Rattle.machine_effects.specs.EffectView.{effect_of, accesses_of, decision_of};
ghost use Rattle.machine_hashing.specs.HashedView.{whole_of, hashed_of, trace_first, traced_first, trace_last};

use machine::refusal::InstructionError;
use machine_effects::effect::{Decided, Effect, Refused};
use machine_effects::memory;
use machine_effects::memory::Row;
use machine_isa::few::Few;
use machine_isa::op_stack::Top;
use machine_ram::ram::Ram;
use tip5::permutation::trace;
use tip5::sponge::Sponge;

#[derive(Clone, Copy)]
pub struct Hashed {
    // What it does but for the sponge and the trace.
    pub effect: Effect,
    // What the sponge becomes, where it changes.
    pub sponge: Option<Sponge>,
    pub recorded: Recorded,
}

// What is recorded besides the effect's own calls: a reset of the sponge before them, or, under an opcode, a trace before or
// behind them.
#[derive(Clone, Copy)]
pub enum Recorded {
    Reset,
    First(u64, [u64; 96]),
    Last(u64, [u64; 96]),
}

pub type HashDecided = Result<Hashed, Refused>;

// ---- what they are built of

// A trace is recorded before the other calls, and the sponge stays.
pub fn first(effect: Effect, opcode: u64, trace: [u64; 96]) -> Hashed
    ensures { whole_of result ≡ trace_first opcode trace (effect_of effect) }
{
    Hashed {
        effect,
        sponge: None,
        recorded: Recorded::First(opcode, trace),
    }
}

// The same of a decision: one that is turned down stays so.
pub fn trace_first(decided: Decided, opcode: u64, trace: [u64; 96]) -> HashDecided
    ensures { hashed_of result ≡ traced_first opcode trace (decision_of decided) }
{
    Ok(first(decided?, opcode, trace))
}

// The last of a trace's six states.
pub fn last_state(trace: &[u64; 96]) -> [u64; 16]
    ensures { result ≡ last_state trace.now }
{
    let mut words = [0; 16];
    words.copy_from_slice(&trace[80..]);
    words
}

// A trace is recorded behind the other calls, and its last state becomes the sponge.
fn last(effect: Effect, opcode: u64, trace: [u64; 96]) -> Hashed
    ensures { whole_of result ≡ trace_last opcode trace (effect_of effect) }
{
    let sponge = Sponge {
        words: last_state(&trace),
        set: true,
    };
    Hashed {
        effect,
        sponge: Some(sponge),
        recorded: Recorded::Last(opcode, trace),
    }
}

// The window with ST 0 first.
pub fn top_first(w: &Top) -> [u64; 16]
    ensures { result ≡ from_top w.now.words 0 16 }
{
    std::array::from_fn(|i| w.st(i))
}

// Ten words, then those of `rest` from place 10 on. Tip5's own function takes a block of ten words; the callers
// here have sixteen.
fn overwritten(rest: [u64; 16], ten: &[u64; 16]) -> [u64; 16]
    ensures { result ≡ take 10 ten.now ++ drop 10 rest }
{
    let mut words = rest;
    words[..10].copy_from_slice(&ten[..10]);
    words
}

// Words 0 to 4 of a trace's last state as they are put on, word 0 last.
fn digest(trace: &[u64; 96]) -> [u64; 5]
    ensures { result ≡ reversed (last_state trace.now) 5 }
{
    let s = last_state(trace);
    [s[4], s[3], s[2], s[1], s[0]]
}

// ---- the instructions

pub fn hash(w: &Top) -> HashDecided
    ensures { hashed_of result ≡ hash_of w.now.words }
{
    let t = trace(overwritten([1; 16], &top_first(w)));
    Ok(first(Effect::puts(10, Few::of(digest(&t))), 18, t))
}

// The first of five places at which ST i and ST i + 5 differ is refused.
pub fn assert_vector(w: &Top) -> Decided
    ensures { decision_of result ≡ assert_vector_of w.now.words }
{
    for i in 0..5 {
        let a = w.st(i);
        let b = w.st(i + 5);
        if a != b {
            return Err(InstructionError::VectorAssertionFailed(i as u64, a, b).into());
        }
    }
    Ok(Effect::takes_off(5))
}

pub fn sponge_init() -> HashDecided
    ensures { hashed_of result ≡ sponge_init_of }
{
    Ok(Hashed {
        effect: Effect::takes_off(0),
        sponge: Some(Sponge::init()),
        recorded: Recorded::Reset,
    })
}

pub fn sponge_absorb(sponge: &Sponge, w: &Top) -> HashDecided
    ensures { hashed_of result ≡ sponge_absorb_of sponge.now w.now.words }
{
    if !sponge.set {
        return Err(InstructionError::SpongeNotInitialized.into());
    }
    let t = trace(overwritten(sponge.words, &top_first(w)));
    Ok(last(Effect::takes_off(10), 34, t))
}

// Puts on the first four of the words read, word 0 last, and the address behind them all.
fn put_read(row: &Row) -> Effect
    ensures { effect_of result ≡ recording (accesses_of row.now.accesses) 5 (reversed row.now.words 4 ++ (row.now.next ∷ Nil)) }
{
    let ten = row.words;
    let words = [ten[3], ten[2], ten[1], ten[0], row.next];
    Effect::puts_ram(5, Few::of(words), row.accesses)
}

// Ten words from the address in ST 0 on are absorbed.
pub fn sponge_absorb_mem(sponge: &Sponge, ram: &Ram<'_>, w: &Top) -> HashDecided
    requires { st w.now.words 0 < p }
    ensures { hashed_of result ≡ sponge_absorb_mem_of sponge.now (cells_of ram.now) w.now.words }
{
    if !sponge.set {
        return Err(InstructionError::SpongeNotInitialized.into());
    }
    let row = memory::read_row(ram, w.st(0), memory::UP, 10);
    let t = trace(overwritten(sponge.words, &row.words));
    Ok(last(put_read(&row), 34, t))
}

// The first ten of sixteen words as they are put on, word 0 last.
fn rate(s: [u64; 16]) -> [u64; 10]
    ensures { result ≡ reversed s 10 }
{
    std::array::from_fn(|i| s[9 - i])
}

// The sponge's first ten words go on the stack.
pub fn sponge_squeeze(sponge: &Sponge) -> HashDecided
    ensures { hashed_of result ≡ sponge_squeeze_of sponge.now }
{
    if !sponge.set {
        return Err(InstructionError::SpongeNotInitialized.into());
    }
    let s = sponge.words;
    let t = trace(s);
    Ok(last(Effect::puts(0, Few::of(rate(s))), 56, t))
}
