// A step behind place A, with its records where they are asked for: place B, then the instruction, then what it makes of the
// machine.
//
// `recording` stands beside the buffer, and a caller that records nothing lends a buffer too. An `Option<&mut [u8]>` was tried in their place: lent by value
// through a loop, the proof does not learn what its slice holds behind the loop; lent as a `&mut Option`, each caller needs a line that takes the slice out
// again, for the proof alone.
ghost use Rattle.std.specs.Prelude.{◌≡◌, true as yes, false as no, ◌+◌, ◌≤◌, ◌<◌};
ghost use Rattle.machine.specs.Machine.{machine};
ghost use Rattle.machine.specs.Lent.{code_of, memory_of, Keeps};
ghost use Rattle.machine.specs.Apply.{sponge_after};
ghost use Rattle.machine_effects.specs.EffectView.{next_of};
ghost use Rattle.machine_hashing.specs.HashedView.{sponge_change};
ghost use Rattle.machine_step.specs.AdvanceView.{goes_from, RefusedBy, Acting, Standing, StandingOn, Advanced};

use crate::records;
use machine::lent::{LentCode, LentMemory};
use machine::refusal::InstructionError;
use machine::state::VMState;
use machine_decide::decide;
use machine_decide::place_b::place_b;
use machine_effects::effect::{Effect, Next, Refused};
use machine_hashing::hashing::Hashed;
use machine_isa::instruction::size;
use machine_log::calls::Besides;
use machine_perform::answer::Stepped;
use machine_perform::perform::drop_top;
use machine_perform::settle::settle;
use tip5::sponge::Sponge;

// Where the pointer goes.
pub fn next(way: Next, pointer: u64, opcode: u64) -> u64
    requires { pointer + 2 < 18446744073709551616 }
    ensures { result ≡ goes_from pointer opcode (next_of way) }
{
    match way {
        Next::Onward => pointer + size(opcode),
        Next::To(target) => target,
    }
}

// The sponge that an instruction leaves.
fn sponge_behind(hashed: &Hashed, sponge: &Sponge) -> Sponge
    ensures { result ≡ sponge_after sponge.now (sponge_change hashed.now.sponge) }
{
    match hashed.sponge {
        Some(new) => new,
        None => *sponge,
    }
}

// A refused instruction changes nothing, but that skiz has dropped its word.
fn refuse(state: &VMState, refused: Refused, memory: &mut LentMemory<'_>) -> Stepped
    requires { 1 ≤ state.now.depth }
    ensures refused { RefusedBy state.now (memory_of memory.old) refused result (memory_of memory.new) }
    ensures lent { Keeps memory.old memory.new }
{
    match refused {
        Refused::Kept(error) => Stepped {
            answer: Err(error),
            state: *state,
            bytes: 0,
        },
        Refused::Dropped(error) => Stepped {
            answer: Err(error),
            state: drop_top(state, memory.op_stack),
            bytes: 0,
        },
    }
}

// What an instruction's effect makes of the machine, and its records.
fn act(
    recording: bool,
    state: &VMState,
    code: &LentCode<'_>,
    effect: &Effect,
    sponge: &Sponge,
    besides: Besides<'_>,
    memory: &mut LentMemory<'_>,
    b: &mut [u8],
) -> Stepped
    requires { Acting recording (machine state.now (code_of code.now) (memory_of memory.old)) effect.now sponge.now besides b.old }
    ensures advanced { Advanced recording (machine state.now (code_of code.now) (memory_of memory.old)) b.old result (memory_of memory.new) b.new }
    ensures lent { Keeps memory.old memory.new }
{
    let pointer = next(
        effect.next,
        state.pointer,
        code.opcodes[state.pointer as usize],
    );
    let moved = settle(state, effect, pointer, sponge, memory);
    let asked = records::asked(recording, moved.answer);
    let bytes = records::write(
        asked,
        besides,
        state.revision,
        state.clock,
        effect,
        memory.look().op_stack,
        state.depth,
        moved.state.depth,
        b,
    );
    Stepped {
        answer: moved.answer,
        state: moved.state,
        bytes,
    }
}

// An instruction without a trace.
fn advance_plain(
    recording: bool,
    state: &VMState,
    code: &LentCode<'_>,
    memory: &mut LentMemory<'_>,
    b: &mut [u8],
) -> Stepped
    requires { StandingOn no recording (machine state.now (code_of code.now) (memory_of memory.old)) b.old }
    ensures advanced { Advanced recording (machine state.now (code_of code.now) (memory_of memory.old)) b.old result (memory_of memory.new) b.new }
    ensures lent { Keeps memory.old memory.new }
{
    let decided = decide::plain(state, code, &memory.look());
    match decided {
        Ok(effect) => act(
            recording,
            state,
            code,
            &effect,
            &state.sponge,
            Besides::Nothing,
            memory,
            b,
        ),
        Err(refused) => refuse(state, refused, memory),
    }
}

// An instruction with a trace, or sponge_init. A function for each way: one for both would be handed what decides, with its clauses, and has a sponge and what
// is recorded besides to choose.
fn advance_hashing(
    recording: bool,
    state: &VMState,
    code: &LentCode<'_>,
    memory: &mut LentMemory<'_>,
    b: &mut [u8],
) -> Stepped
    requires { StandingOn yes recording (machine state.now (code_of code.now) (memory_of memory.old)) b.old }
    ensures advanced { Advanced recording (machine state.now (code_of code.now) (memory_of memory.old)) b.old result (memory_of memory.new) b.new }
    ensures lent { Keeps memory.old memory.new }
{
    let decided = decide::hashing(state, code, &memory.look());
    match decided {
        Ok(hashed) => {
            let sponge = sponge_behind(&hashed, &state.sponge);
            let besides = records::besides(&hashed.recorded);
            act(
                recording,
                state,
                code,
                &hashed.effect,
                &sponge,
                besides,
                memory,
                b,
            )
        }
        Err(refused) => refuse(state, refused, memory),
    }
}

// A step of a sound machine.
pub fn advance(
    recording: bool,
    state: &VMState,
    code: &LentCode<'_>,
    memory: &mut LentMemory<'_>,
    b: &mut [u8],
) -> Stepped
    requires { Standing recording (machine state.now (code_of code.now) (memory_of memory.old)) b.old }
    ensures advanced { Advanced recording (machine state.now (code_of code.now) (memory_of memory.old)) b.old result (memory_of memory.new) b.new }
    ensures lent { Keeps memory.old memory.new }
{
    if let Err(error) = place_b(state, code) {
        return Stepped {
            answer: Err(InstructionError::Before(error)),
            state: *state,
            bytes: 0,
        };
    }
    if decide::hashes(code.opcodes[state.pointer as usize]) {
        advance_hashing(recording, state, code, memory, b)
    } else {
        advance_plain(recording, state, code, memory, b)
    }
}
