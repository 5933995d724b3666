// Each read of a log altered in turn, and the log replayed up to its end, so that each record is looked at.
ghost use Rattle.std.specs.Prelude.{◌≡◌, ◌+◌, ◌≤◌, length};
ghost use Rattle.replay_scan.specs.Walk.{log_of};
ghost use Rattle.replay_scan.specs.RecordView.{Whole};

use crate::memory_job::STEPS;
use crate::print;
use machine_log::kinds::RecordKind;
use replay_scan::record::{Frame, Log};
use replay_scan::records::Placed;
use std::io;

// Another word than these bytes: below 2^32, and its first byte differs.
fn another(bytes: &[u8; 8]) -> [u8; 8] {
    let first = if bytes[0] == 0 { 1 } else { 0 };
    [first, bytes[1], bytes[2], bytes[3], 0, 0, 0, 0]
}

// Replays with these bytes at a place.
fn replay_with(
    rt: &impl Print,
    log: &mut [u8],
    at: usize,
    what: &[u8],
    bytes: &[u8; 8],
) -> io::Result<()>
    requires { at + 8 ≤ length log.old }
{
    log[at..at + 8].copy_from_slice(bytes);
    print::number(rt, b"read at byte ", at as u64)?;
    print::text(rt, what)?;
    print::replay_to(rt, log, STEPS)
}

// The read whose value stands at a place; it is put back.
fn alter_read(rt: &impl Print, log: &mut [u8], at: usize) -> io::Result<()>
    requires { at + 8 ≤ length log.old }
{
    let mut old = [0u8; 8];
    old.copy_from_slice(&log[at..at + 8]);
    let word = another(&old);
    let none = [255u8; 8];
    replay_with(rt, log, at, b" another word", &word)?;
    replay_with(rt, log, at, b" no word", &none)?;
    log[at..at + 8].copy_from_slice(&old);
    Ok(())
}

// The record at a place, if it is a read: of these two kinds one stands where the direction is 0.
fn alter_record(rt: &impl Print, log: &mut [u8], at: usize, frame: Frame) -> io::Result<()>
    requires { Whole (log_of 1 log.old) at frame }
{
    match frame.kind {
        RecordKind::Stack if log[at + 16] == 0 => alter_read(rt, log, at + 17),
        RecordKind::Ram if log[at + 24] == 0 => alter_read(rt, log, at + 16),
        _ => Ok(()),
    }
}

// The reads of a log, in another copy of it.
pub fn alter_reads(rt: &impl Print, log: &[u8], altered: &mut [u8]) -> io::Result<()>
    requires { length altered.old ≡ length log.now }
{
    let lent = Log {
        bytes: log,
        revision: 1,
    };
    for record in lent.records(log.len()) {
        let Ok(Placed { at, frame, .. }) = record else {
            return Ok(());
        };
        alter_record(rt, altered, at, frame)?;
    }
    Ok(())
}
