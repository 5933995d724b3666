// What the next instruction does: place C, behind place B.
ghost use Rattle.std.specs.Prelude.{◌≡◌, true as yes, false as no};
ghost use Rattle.machine.specs.Machine.{machine};
ghost use Rattle.machine.specs.Lent.{code_of, seen};
ghost use Rattle.machine.specs.Words.{Words};
ghost use Rattle.machine.specs.Decide.{opcode_of};
ghost use Rattle.machine_decide.specs.DecideView.{hashes as hashes_of, StandsOn, HashesOn, Reliable, Acted, ActedHash, DecidedPlain, DecidedHash};

use crate::handed::{Handed, HandedHash, hand_over, hand_over_hash};
use machine::lent::{LentCode, SeenMemory};
use machine::refusal::{InstructionError, PlaceA};
use machine::state::VMState;
use machine_arithmetic::{arithmetic, bitwise};
use machine_effects::effect::{Decided, Refused};
use machine_effects::{control, input_output, memory, stack};
use machine_hashing::hashing::HashDecided;
use machine_hashing::{hashing, many_in_one};
use tip5::sponge::Sponge;

// Whether an instruction's effect carries a trace or changes the sponge.
pub fn hashes(opcode: u64) -> bool
    ensures { result ≡ hashes_of opcode }
{
    matches!(opcode, 18 | 34 | 36 | 40 | 44 | 48 | 56)
}

// The instructions without a trace, in the order of the Rust.
pub fn act(h: &Handed<'_>) -> Decided
    requires reliable { Reliable h.now }
    requires plain { hashes_of h.now.opcode ≡ no }
    ensures { Acted h.now result }
{
    let argument = h.argument;
    let n = argument as usize;
    match h.opcode {
        3 => stack::pop(n),
        1 => stack::push(argument),
        9 => input_output::divine(n, h.secret),
        17 => stack::pick(&h.top, n),
        25 => stack::place(&h.top, n),
        33 => stack::dup(&h.top, n),
        41 => stack::swap(&h.top, n),
        0 => control::halt(),
        8 => control::nop(),
        2 => control::skiz(h.opcodes, h.pointer, &h.top),
        49 => control::call(h.pointer, argument),
        16 => control::return_from_call(h.jump),
        24 => control::recurse(h.jump),
        32 => control::recurse_or_return(&h.top, h.jump),
        10 => control::assert(&h.top),
        57 => memory::read_mem(&h.ram, &h.top, n),
        11 => memory::write_mem(&h.top, n),
        26 => hashing::assert_vector(&h.top),
        42 => arithmetic::add(&h.top),
        65 => arithmetic::addi(&h.top, argument),
        50 => arithmetic::mul(&h.top),
        64 => arithmetic::invert(&h.top),
        58 => arithmetic::eq(&h.top),
        4 => bitwise::split(&h.top),
        6 => bitwise::lt(&h.top),
        14 => bitwise::and(&h.top),
        22 => bitwise::xor(&h.top),
        12 => bitwise::log_2_floor(&h.top),
        30 => bitwise::pow(&h.top),
        20 => bitwise::div_mod(&h.top),
        28 => bitwise::pop_count(&h.top),
        66 => arithmetic::xx_add(&h.top),
        74 => arithmetic::xx_mul(&h.top),
        72 => arithmetic::x_invert(&h.top),
        82 => arithmetic::xb_mul(&h.top),
        73 => input_output::read_io(n, h.public),
        19 => input_output::write_io(&h.top, n),
        80 => many_in_one::xx_dot_step(&h.ram, &h.top),
        88 => many_in_one::xb_dot_step(&h.ram, &h.top),
        _ => Err(Refused::Kept(InstructionError::Handed(PlaceA::InvalidOpcode))),
    }
}

// The instructions with a trace, and sponge_init.
pub fn act_hashing(h: &HandedHash<'_>, sponge: &Sponge) -> HashDecided
    requires words { Words h.now.top.words }
    requires hashing { hashes_of h.now.opcode ≡ yes }
    ensures { ActedHash h.now sponge.now result }
{
    match h.opcode {
        18 => hashing::hash(&h.top),
        40 => hashing::sponge_init(),
        34 => hashing::sponge_absorb(sponge, &h.top),
        48 => hashing::sponge_absorb_mem(sponge, &h.ram, &h.top),
        56 => hashing::sponge_squeeze(sponge),
        36 => many_in_one::merkle_step(h.digests, &h.top),
        44 => many_in_one::merkle_step_mem(&h.ram, &h.top),
        _ => Err(Refused::Kept(InstructionError::Handed(PlaceA::InvalidOpcode))),
    }
}

// ---- the same of the machine that stands on a slot

// An instruction without a trace.
pub fn plain(state: &VMState, code: &LentCode<'_>, memory: &SeenMemory<'_>) -> Decided
    requires on { StandsOn (machine state.now (code_of code.now) (seen memory.now)) }
    requires plain { hashes_of (opcode_of (machine state.now (code_of code.now) (seen memory.now))) ≡ no }
    ensures { DecidedPlain (machine state.now (code_of code.now) (seen memory.now)) result }
{
    let h = hand_over(state, code, memory);
    act(&h)
}

// An instruction with a trace, or sponge_init.
pub fn hashing(state: &VMState, code: &LentCode<'_>, memory: &SeenMemory<'_>) -> HashDecided
    requires on { HashesOn (machine state.now (code_of code.now) (seen memory.now)) }
    requires hashing { hashes_of (opcode_of (machine state.now (code_of code.now) (seen memory.now))) ≡ yes }
    ensures { DecidedHash (machine state.now (code_of code.now) (seen memory.now)) result }
{
    let h = hand_over_hash(state, code, memory);
    act_hashing(&h, &state.sponge)
}
