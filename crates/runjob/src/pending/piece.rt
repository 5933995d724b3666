// A piece of the text that a job prints: the stack lines of as many steps as the log holds and, where the run has ended, the output's lines
// and the end line behind them.
ghost use Rattle.std.specs.Prelude.{◌≡◌, ℕ, List, ◌++◌, IfOk, string_bytes};
ghost use Rattle.machine_steps.specs.RanView.{ending_in};
ghost use Rattle.runjob.specs.SpaceView.{space_code, space_memory};
ghost use Rattle.runjob.specs.PieceView.{EndsWith, Ready, Writes};

use crate::pending::Pending;
use crate::refusals::number;
use crate::space::Space;
use job::listing::{Counts, EndLine, OutLines};
use job::log_lines::StackLines;
use machine::lent::{LentCode, LentMemory};
use machine_steps::answer::Ending;
use machine_vm::trace::trace_execution;
use std::alloc::AllocError;
use std::fmt::Write;

// The end line; none where the log was full.
fn end_line(ending: Ending, counts: Counts) -> Option<EndLine>
    ensures { EndsWith (ending_in ending) counts result }
{
    match ending {
        Ending::Halted => Some(EndLine::Halted(counts)),
        Ending::Spent => Some(EndLine::Spent(counts)),
        Ending::Full | Ending::TableFull => None,
        Ending::Refused(error) => Some(EndLine::Refused(number(error), counts)),
    }
}

// Gives back the job if more pieces are to come.
pub fn piece(
    text: &mut String,
    job: Pending,
    space: &mut Space,
) -> Result<Option<Pending>, AllocError>
    requires { Ready job (space_code space.old) (space_memory space.old) }
    ensures { IfOk result (λ r. (own : List ℕ) × (string_bytes text.new ≡ string_bytes text.old ++ own)
        × Writes job (space_code space.old) (space_memory space.old) r (space_memory space.new) own × (space_code space.new ≡ space_code space.old)) }
{
    let slots = job.slots;
    let publics = job.publics;
    let secrets = job.secrets;
    let digests = job.digests;
    let code = LentCode {
        opcodes: &space.opcodes[..slots],
        arguments: &space.arguments[..slots],
        public: &space.public[..publics],
        secret: &space.secret[..secrets],
        digests: &space.digests[..digests],
    };
    let mut memory = LentMemory {
        op_stack: &mut space.op_stack,
        origins: &mut space.origins,
        destinations: &mut space.destinations,
        addresses: &mut space.addresses,
        values: &mut space.values,
        output: &mut space.output,
    };
    let t = trace_execution(
        None,
        job.budget,
        job.state,
        &code,
        &mut memory,
        &mut space.log,
    );
    let bytes = t.bytes;
    let log = &space.log[..bytes];
    write!(text, "{}", StackLines(log))?;
    let state = t.state;
    let done = job.done + t.count;
    let counts = Counts {
        steps: done,
        pointer: state.pointer,
        depth: state.depth as u64,
    };
    match end_line(t.ending, counts) {
        None => Ok(Some(Pending {
            done,
            budget: job.budget - t.count,
            state,
            ..job
        })),
        Some(end) => {
            let outputs = state.outputs;
            let words = &space.output[..outputs];
            write!(text, "{}{end}", OutLines(words))?;
            Ok(None)
        }
    }
}
