// Replay without RAM's words: one walk over the log for frames, clocks, fields and the stack.
ghost use Rattle.std.specs.Prelude.{◌≡◌, ◌+◌, ◌≤◌, ◌<◌, length};
ghost use Rattle.choices.specs.Choice.{cond};
ghost use Rattle.machine.specs.Records.{stack, ram, length_of};
ghost use Rattle.machine_log.specs.Kinds.{kind_number};
ghost use Rattle.replay.specs.Replay.{fields40};
ghost use Rattle.replay_scan.specs.CountsView.{number45};
ghost use Rattle.replay_scan.specs.FaultView.{fault_or_0};
ghost use Rattle.replay_scan.specs.RecordView.{log_at, record_at};
ghost use Rattle.replay_scan.specs.Scan.{Scanned};
ghost use Rattle.replay_scan.specs.ScanView.{Places, StackFault, Movable, Moved, OwnTurn, Turns, Stays, Times};

use crate::counts::Counts;
use crate::fault::Fault;
use crate::record::{Fields, Log};
use crate::records::Placed;
use machine_log::kinds::RecordKind;

// Where a scan ended, at which fault, if at one, with the depth there, and whether a record before is of RAM.
#[derive(Clone, Copy)]
pub struct Scan {
    pub fault: Option<Fault>,
    pub end: usize,
    pub depth: usize,
    pub ram: bool,
}

// What a record that goes on has behind it, and whether it is of RAM. Behind a RAM read too many, which ends the scan, nothing is counted.
#[derive(Clone, Copy)]
pub struct Turn {
    pub counts: Option<Counts>,
    pub depth: usize,
    pub ram: bool,
}

// ---- faults: tests that return, where they can be, since choosing a number takes longer where there is none

// 40 is not its fault: a direction of 0 or 1, and two numbers that are words.
fn fields_fit(f: Fields) -> bool
    ensures { fields40 f.dir f.place f.value ≡ cond result 0 40 }
{
    if 1 < f.dir {
        return false;
    }
    if 18446744069414584320 < f.place {
        return false;
    }
    f.value <= 18446744069414584320
}

// A record of the op stack fits the depth and the words; `over` says whether it is one too many.
fn stack_fault(words: &[u64], depth: usize, f: Fields, over: bool) -> Option<Fault>
    requires { Places words.now depth }
    ensures { StackFault words.now depth f (number45 over) (fault_or_0 result) }
{
    let place = f.place as usize;
    if f.dir != 0 {
        if place != depth {
            return Some(Fault::WrongPlace);
        }
        if over {
            return Some(Fault::TooMany);
        }
        if words.len() < depth - 15 {
            return Some(Fault::NoRoom);
        }
        return None;
    }
    if depth < 17 {
        return Some(Fault::WrongPlace);
    }
    if place != depth - 1 {
        return Some(Fault::WrongPlace);
    }
    if f.value != words[depth - 17] {
        return Some(Fault::WrongRead);
    }
    if over {
        return Some(Fault::TooMany);
    }
    None
}

// ---- turns, one for each kind of record, since each counts another thing; what they share is own_turn. An error is
// the fault that ends the scan at the record, or none where its clock does

// The stack behind a record without a fault; gives the depth.
fn stack_move(words: &mut [u64], depth: usize, f: Fields) -> usize
    requires { Movable words.old depth f }
    ensures { Moved words.old depth f words.new result }
{
    if f.dir == 0 {
        words[depth - 17] = 0;
        return depth - 1;
    }
    words[depth - 16] = f.value;
    depth + 1
}

// A stack or RAM record by its own clock and fields.
fn own_turn(f: Fields, clock: u64, counts: Counts) -> Result<(), Option<Fault>>
    ensures { OwnTurn clock counts f result }
{
    if clock <= f.clock {
        return Err(None);
    }
    if !fields_fit(f) {
        return Err(Some(Fault::Malformed));
    }
    if f.clock < counts.last {
        return Err(Some(Fault::ClockFalls));
    }
    Ok(())
}

fn stack_turn(
    words: &mut [u64],
    f: Fields,
    clock: u64,
    counts: Counts,
    depth: usize,
) -> Result<Turn, Option<Fault>>
    requires { Places words.old depth }
    ensures { Turns clock counts depth words.old (stack f.clock f.place f.dir f.value) words.new result }
{
    own_turn(f, clock, counts)?;
    let here = counts.at(f.clock);
    if let Some(fault) = stack_fault(words, depth, f, here.stack_over(f.dir)) {
        return Err(Some(fault));
    }
    let behind = Counts {
        last: f.clock,
        way: f.dir,
        stacks: here.stacks + 1,
        rams: here.rams,
    };
    Ok(Turn {
        counts: Some(behind),
        depth: stack_move(words, depth, f),
        ram: false,
    })
}

// 45 of a read comes behind 43, which the scan leaves out.
fn ram_turn(f: Fields, clock: u64, counts: Counts, depth: usize) -> Result<Turn, Option<Fault>>
    ensures { Stays clock counts depth (ram f.clock f.place f.value f.dir) result }
{
    own_turn(f, clock, counts)?;
    let here = counts.at(f.clock);
    if here.ram_over() {
        if f.dir != 0 {
            return Err(Some(Fault::TooMany));
        }
        return Ok(Turn {
            counts: None,
            depth,
            ram: true,
        });
    }
    let behind = Counts {
        last: f.clock,
        way: here.way,
        stacks: here.stacks,
        rams: here.rams + 1,
    };
    Ok(Turn {
        counts: Some(behind),
        depth,
        ram: true,
    })
}

// A Tip5 or U32 record with a clock t: it moves the last clock, and is not counted.
fn timed_turn(t: u64, clock: u64, counts: Counts, depth: usize) -> Result<Turn, Option<Fault>>
    ensures { Times clock counts depth t result }
{
    if clock <= t {
        return Err(None);
    }
    if t < counts.last {
        return Err(Some(Fault::ClockFalls));
    }
    Ok(Turn {
        counts: Some(counts.at(t)),
        depth,
        ram: false,
    })
}

// The record of this kind at a place. Kinds 1 to 3 are only measured.
fn record_turn(
    log: Log<'_>,
    at: usize,
    kind: RecordKind,
    words: &mut [u64],
    clock: u64,
    counts: Counts,
    depth: usize,
) -> Result<Turn, Option<Fault>>
    requires { (at + length_of log.revision (kind_number kind) + 2 ≤ length log.bytes.now) × (0 < length_of log.revision (kind_number kind)) × Places words.old depth }
    ensures { Turns clock counts depth words.old (record_at (log_at log.entry) at (kind_number kind)) words.new result }
{
    match kind {
        RecordKind::Stack => stack_turn(words, log.stack_fields(at), clock, counts, depth),
        RecordKind::Ram => ram_turn(log.ram_fields(at), clock, counts, depth),
        RecordKind::TimedTip5 | RecordKind::TimedU32 => {
            timed_turn(log.timed_clock(at, kind), clock, counts, depth)
        }
        RecordKind::Reset | RecordKind::Tip5 | RecordKind::U32 => Ok(Turn {
            counts: Some(counts),
            depth,
            ram: false,
        }),
    }
}

// The log up to a record that its clock or a fault ends, or behind a RAM read too many; writes the stack's words.
pub fn scan_log(log: Log<'_>, words: &mut [u64], clock: u64) -> Scan
    ensures { Scanned (log_at log.entry) words.old clock words.new result }
{
    let mut counts = Counts::none(0);
    let mut depth = 16;
    let mut ram = false;
    for record in log.records(log.bytes.len()) {
        let Placed { at, next, frame } = match record {
            Ok(placed) => placed,
            Err(end) => {
                return Scan {
                    fault: Some(Fault::Malformed),
                    end,
                    depth,
                    ram,
                };
            }
        };
        let turn = match record_turn(log, at, frame.kind, words, clock, counts, depth) {
            Ok(turn) => turn,
            Err(fault) => {
                return Scan {
                    fault,
                    end: at,
                    depth,
                    ram,
                };
            }
        };
        depth = turn.depth;
        ram |= turn.ram;
        counts = match turn.counts {
            Some(behind) => behind,
            None => {
                return Scan {
                    fault: Some(Fault::TooMany),
                    end: next,
                    depth,
                    ram,
                };
            }
        };
    }
    Scan {
        fault: None,
        end: log.bytes.len(),
        depth,
        ram,
    }
}
