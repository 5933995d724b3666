// An effect and place D: what it makes of the machine, or the limit that it meets.
ghost use Rattle.machine.specs.Lent.{memory_of, Keeps};
ghost use Rattle.machine_perform.specs.AnswerView.{Settling, Settled};

use crate::answer::Moved;
use crate::{limits, perform};
use machine::lent::LentMemory;
use machine::refusal::InstructionError;
use machine::state::VMState;
use machine_effects::effect::Effect;
use tip5::sponge::Sponge;

// What an effect makes of the machine, or the limit that it meets: then nothing is changed.
pub fn settle(
    state: &VMState,
    effect: &Effect,
    pointer: u64,
    sponge: &Sponge,
    memory: &mut LentMemory<'_>,
) -> Moved
    requires { Settling state.now effect.now (memory_of memory.old) }
    ensures settled { Settled state.now effect.now pointer sponge.now (memory_of memory.old) result (memory_of memory.new) }
    ensures lent { Keeps memory.old memory.new }
{
    let room = limits::limits(state, effect, &memory.look());
    match room {
        Ok(()) => Moved {
            answer: Ok(()),
            state: perform::perform(state, effect, pointer, sponge, memory),
        },
        Err(error) => Moved {
            answer: Err(InstructionError::NoRoom(error)),
            state: *state,
        },
    }
}
