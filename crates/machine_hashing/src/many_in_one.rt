// Merkle steps and dot-product steps.
ghost use Rattle.std.specs.Prelude.{◌≡◌, [] as Nil, ◌∷◌, ◌++◌, ◌/◌, ◌<◌, length};
ghost use Rattle.field.specs.Base.{p, add_p};
ghost use Rattle.machine.specs.Words.{Words};
ghost use Rattle.machine.specs.Machine.{st};
ghost use Rattle.machine.specs.Effect.{acts, drawing, recording, ram_read, u32 as called};
ghost use Rattle.machine.specs.Hashing.{fixed_length, last_state, reversed};
ghost use Rattle.machine.specs.Arithmetic.{words_x};
ghost use Rattle.machine.specs.ManyInOne.{siblings, merkle_trace, parent, merkle_calls, merkle_stepped, merkle_step_of, merkle_step_mem_of, xheld, xx_dot_step_of, xb_dot_step_of};
ghost use Rattle.machine_ram.specs.LentCells.{cells_of};
ghost use Rattle.machine_isa.specs.FewWords.{words_of};
ghost use Rattle.machine_effects.specs.EffectView.{effect_of, accesses_of, decision_of};
ghost use Rattle.machine_hashing.specs.HashedView.{whole_of, hashed_of};

use crate::hashing;
use crate::hashing::{HashDecided, Hashed};
use field::base;
use field::extension::XFieldElement;
use machine::refusal::InstructionError;
use machine_arithmetic::arithmetic::element;
use machine_arithmetic::bitwise::as_u32;
use machine_effects::effect::{Access, Accesses, Decided, Direction, Effect, U32Call, U32Calls};
use machine_effects::memory;
use machine_effects::memory::Row;
use machine_isa::few::Few;
use machine_isa::op_stack::Top;
use machine_ram::ram::Ram;
use tip5::permutation::trace;

// ---- Merkle steps

// Two digests of five words each and six ones: what hashing of a fixed length takes.
fn pair(left: &[u64], right: &[u64]) -> [u64; 16]
    requires { (length left.now ≡ 5) × (length right.now ≡ 5) }
    ensures { result ≡ fixed_length (left.now ++ right.now) }
{
    let mut words = [1; 16];
    words[..5].copy_from_slice(left);
    words[5..10].copy_from_slice(right);
    words
}

// The node's own digest stands left where its index is even.
fn children(index: u64, own: &[u64], sibling: &[u64]) -> [u64; 16]
    requires { (length own.now ≡ 5) × (length sibling.now ≡ 5) }
    ensures { result ≡ fixed_length (siblings index own.now sibling.now) }
{
    if index % 2 == 0 {
        pair(own, sibling)
    } else {
        pair(sibling, own)
    }
}

// The node's index is in ST 5, and its digest in ST 0 to ST 4.
fn merkle_trace(w: &Top, sibling: &[u64]) -> [u64; 96]
    requires { length sibling.now ≡ 5 }
    ensures { result ≡ merkle_trace w.now.words sibling.now }
{
    let own = hashing::top_first(w);
    trace(children(w.st(5), &own[..5], sibling))
}

// The parent's index and, behind it, the parent's digest as they are put on.
fn parent_words(index: u64, trace: &[u64; 96]) -> [u64; 6]
    ensures { result ≡ index / 2 ∷ reversed (last_state trace.now) 5 }
{
    let s = hashing::last_state(trace);
    [index / 2, s[4], s[3], s[2], s[1], s[0]]
}

// Takes words off and puts words on, with a call that shows index and half of it to be u32, then reads of RAM.
fn put_step(pops: usize, words: Few<16>, digests: usize, index: u64, accesses: Accesses) -> Effect
    ensures { effect_of result ≡ drawing 0 0 digests (called 4 index (index / 2) ∷ accesses_of accesses) pops (words_of words) }
{
    let call = U32Call::new(4, index, index / 2);
    Effect {
        digests,
        ..Effect::recording(pops, words, U32Calls::One(call), accesses)
    }
}

// The step with the sibling taken from the secret digests.
fn stepped(w: &Top, trace: [u64; 96]) -> Hashed
    ensures { whole_of result ≡ merkle_stepped w.now.words trace }
{
    let i = w.st(5);
    let words = Few::of(parent_words(i, &trace));
    let effect = put_step(6, words, 1, i, Accesses::none());
    hashing::first(effect, 18, trace)
}

// `left` is what is left of the secret digests, of five words each.
pub fn merkle_step(left: &[u64], w: &Top) -> HashDecided
    ensures { hashed_of result ≡ merkle_step_of left.now w.now.words }
{
    as_u32(w.st(5))?;
    if left.len() < 5 {
        return Err(InstructionError::EmptySecretDigestInput.into());
    }
    Ok(stepped(w, merkle_trace(w, &left[..5])))
}

// The step with the sibling read from RAM.
fn stepped_mem(w: &Top, row: &Row, trace: [u64; 96]) -> Hashed
    ensures { whole_of result ≡ recording (merkle_calls w.now.words trace ++ accesses_of row.now.accesses) 8 (row.now.next ∷ st w.now.words 6 ∷ parent w.now.words trace) }
{
    let i = w.st(5);
    let p = parent_words(i, &trace);
    let words = [row.next, w.st(6), p[0], p[1], p[2], p[3], p[4], p[5]];
    let effect = put_step(8, Few::of(words), 0, i, row.accesses);
    hashing::first(effect, 18, trace)
}

// The sibling stands in RAM from the address in ST 7 on.
pub fn merkle_step_mem(ram: &Ram<'_>, w: &Top) -> HashDecided
    requires { st w.now.words 7 < p }
    ensures { hashed_of result ≡ merkle_step_mem_of (cells_of ram.now) w.now.words }
{
    as_u32(w.st(5))?;
    let row = memory::read_row(ram, w.st(7), memory::UP, 5);
    let t = merkle_trace(w, &row.words[..5]);
    Ok(stepped_mem(w, &row, t))
}

// ---- dot products

// The extension word in RAM at a.
fn element_at(ram: &Ram<'_>, a: u64) -> XFieldElement
    requires { a < p }
    ensures { result ≡ xheld (cells_of ram.now) a }
{
    let (c0, place) = ram.read_near(a, 0);
    let (c1, place) = ram.read_near(base::add(a, 1), place);
    let (c2, _) = ram.read_near(base::add(a, 2), place);
    XFieldElement { c0, c1, c2 }
}

// Reads, and what is put on: z, and the next addresses.
fn put_dot(z: XFieldElement, r: u64, l: u64, accesses: Accesses) -> Decided
    ensures { decision_of result ≡ acts (recording (accesses_of accesses) 5 (words_x z ++ (r ∷ l ∷ Nil))) }
{
    let words = Few::of([z.c2, z.c1, z.c0, r, l]);
    Ok(Effect::puts_ram(5, words, accesses))
}

// The two steps' reads differ in number and order, so that each has a function: a common one would take both lists.
//
// The reads of two extension words in turn, and what is put on: z, and both addresses up by three.
fn put_xx(l: u64, r: u64, x: XFieldElement, y: XFieldElement, z: XFieldElement) -> Decided
    requires { (l < p) × (r < p) }
    ensures { decision_of result ≡ acts (recording (ram_read l x.c0 ∷ ram_read r y.c0 ∷ ram_read (add_p l 1) x.c1 ∷ ram_read (add_p r 1) y.c1 ∷ ram_read (add_p l 2) x.c2 ∷ ram_read (add_p r 2) y.c2 ∷ Nil) 5 (words_x z ++ (add_p r 3 ∷ add_p l 3 ∷ Nil))) }
{
    let reads = [
        Access::new(l, x.c0),
        Access::new(r, y.c0),
        Access::new(base::add(l, 1), x.c1),
        Access::new(base::add(r, 1), y.c1),
        Access::new(base::add(l, 2), x.c2),
        Access::new(base::add(r, 2), y.c2),
    ];
    put_dot(
        z,
        base::add(r, 3),
        base::add(l, 3),
        Accesses::of(Direction::Read, reads),
    )
}

pub fn xx_dot_step(ram: &Ram<'_>, w: &Top) -> Decided
    requires { Words w.now.words }
    ensures { decision_of result ≡ xx_dot_step_of (cells_of ram.now) w.now.words }
{
    let l = w.word(0);
    let r = w.word(1);
    let x = element_at(ram, l);
    let y = element_at(ram, r);
    let z = element(w, 2) + x * y;
    put_xx(l, r, x, y, z)
}

// The reads of a word and of an extension word, and what is put on: z, and the addresses up by three and by one.
fn put_xb(l: u64, r: u64, b: u64, x: XFieldElement, z: XFieldElement) -> Decided
    requires { (l < p) × (r < p) }
    ensures { decision_of result ≡ acts (recording (ram_read l b ∷ ram_read r x.c0 ∷ ram_read (add_p r 1) x.c1 ∷ ram_read (add_p r 2) x.c2 ∷ Nil) 5 (words_x z ++ (add_p r 3 ∷ add_p l 1 ∷ Nil))) }
{
    let reads = [
        Access::new(l, b),
        Access::new(r, x.c0),
        Access::new(base::add(r, 1), x.c1),
        Access::new(base::add(r, 2), x.c2),
    ];
    put_dot(
        z,
        base::add(r, 3),
        base::add(l, 1),
        Accesses::of(Direction::Read, reads),
    )
}

pub fn xb_dot_step(ram: &Ram<'_>, w: &Top) -> Decided
    requires { Words w.now.words }
    ensures { decision_of result ≡ xb_dot_step_of (cells_of ram.now) w.now.words }
{
    let l = w.word(0);
    let r = w.word(1);
    let b = ram.read(l);
    let x = element_at(ram, r);
    let z = element(w, 2) + x.scale(b);
    put_xb(l, r, b, x, z)
}
