// The records of a step that was taken, at the start of the call buffer, where they are asked for.
ghost use Rattle.std.specs.Prelude.{◌≡◌, ◌++◌};
ghost use Rattle.machine_effects.specs.EffectView.{calls_of};
ghost use Rattle.machine.specs.Records.{call_records, stack_records};
ghost use Rattle.machine_log.specs.Beside.{with_besides};
ghost use Rattle.machine_step.specs.RecordsView.{asked_of, Tells, Roomy, RoomyAt, Recorded as RecordedAll, RecordedAt};

use machine::refusal::InstructionError;
use machine_effects::effect::Effect;
use machine_hashing::hashing::Recorded;
use machine_log::calls;
use machine_log::calls::Besides;

// A refused step has none.
pub fn asked(recording: bool, answer: Result<(), InstructionError>) -> bool
    ensures { result ≡ asked_of recording answer }
{
    match answer {
        Ok(()) => recording,
        Err(_) => false,
    }
}

// What an instruction that hashes records besides its effect's own calls.
pub fn besides(recorded: &Recorded) -> Besides<'_>
    ensures { Tells recorded.now result }
{
    match recorded {
        Recorded::Reset => Besides::Reset,
        Recorded::First(opcode, trace) => Besides::First(*opcode, trace),
        Recorded::Last(opcode, trace) => Besides::Last(*opcode, trace),
    }
}

// `stack` is the op stack after the step, `depth` and `after` its depth before and after it.
pub fn write(
    asked: bool,
    besides: Besides<'_>,
    revision: u64,
    clock: u32,
    effect: &Effect,
    stack: &[u64],
    depth: usize,
    after: usize,
    b: &mut [u8],
) -> usize
    requires { Roomy asked revision besides effect.now stack.now b.old depth after }
    ensures { RecordedAll asked revision b.old b.new (call_records revision clock (with_besides besides.entry (calls_of effect.now)) ++ stack_records clock stack.now stack.now depth after) result }
{
    if asked {
        calls::write(b, revision, clock, besides, effect, stack, depth, after)
    } else {
        0
    }
}

// The op stack's records alone, behind place `at` of the buffer; gives the next place.
pub fn moved(
    recording: bool,
    clock: u32,
    stack: &[u64],
    depth: usize,
    after: usize,
    b: &mut [u8],
    at: usize,
) -> usize
    requires { RoomyAt recording stack.now b.old at depth after }
    ensures { RecordedAt recording b.old b.new at (stack_records clock stack.now stack.now depth after) result }
{
    if recording {
        calls::log_depth(b, at, clock, stack, depth, after)
    } else {
        at
    }
}
