// The stack lines of a log.
ghost use Rattle.std.specs.Prelude.{◌≡◌, length, Some};
ghost use Rattle.std.specs.Iterator.{at_most};
ghost use Rattle.machine.specs.Records.{length_of, record_of};
ghost use Rattle.job.specs.Frame.{size_by, Stands};
ghost use Rattle.job.specs.Listing.{direction_text};
ghost use Rattle.job.specs.ListingView.{direction_number, stack_text_of};
ghost use Rattle.job.specs.LogLines.{line_of, log_lines};
ghost use Rattle.job.specs.LogLinesView.{text_of, NextRecord};

use crate::frame::{kind_in, number_in, whole_in};
use crate::listing::{Direction, StackLine};
pub use crate::put::{record_length, stack_line_at, stack_lines};
use machine_log::kinds::length_of;
use std::fmt;

// The record at the start of a log; none where no whole one stands.
pub fn record_in(log: &[u8]) -> Option<&[u8]>
    ensures { Stands (size_by (length_of 1) log.now) log.now result }
{
    if log.len() < 4 {
        return None;
    }
    whole_in(log, length_of(1, kind_in(log))?)
}

// Any byte but 0 is a write.
fn direction(byte: u8) -> Direction
    ensures { direction_text (direction_number result) ≡ direction_text byte }
{
    if byte == 0 {
        Direction::Read
    } else {
        Direction::Write
    }
}

// What a record of kind 4 says.
pub fn stack_line_in(bytes: &[u8]) -> StackLine
    requires { length bytes.now ≡ 25 }
    ensures { stack_text_of result ≡ line_of (record_of 4 bytes.now) }
{
    StackLine {
        clock: number_in(&bytes[4..8]),
        pointer: number_in(&bytes[8..16]),
        direction: direction(bytes[16]),
        value: number_in(&bytes[17..25]),
    }
}

// A record of the op stack, which has a line, or another one, which has none.
#[derive(Clone, Copy)]
pub enum Record {
    Stack(StackLine),
    Other,
}

impl fmt::Display for Record {
    ghost output = { λ r. Some (text_of r) };

    fn fmt<W: fmt::Write>(&self, f: &mut fmt::Formatter<W>) -> fmt::Result {
        match self {
            Record::Stack(line) => line.fmt(f),
            Record::Other => Ok(()),
        }
    }
}

fn parsed(kind: u64, bytes: &[u8]) -> Record
    requires { kind ≡ 4 → length bytes.now ≡ 25 }
    ensures { text_of result ≡ line_of (record_of kind bytes.now) }
{
    if kind == 4 {
        Record::Stack(stack_line_in(bytes))
    } else {
        Record::Other
    }
}

// The records of a log, up to the first place where no whole one stands.
#[derive(Drop)]
struct Records<'a>(&'a [u8]);

impl Iterator for Records<'_> {
    type Item = Record;

    ghost next_gives = { λ s r t. NextRecord s.0.now r t.0.now };

    ghost remaining = { λ s. at_most (length s.0.now) };

    fn next(&mut self) -> Option<Record> {
        let bytes = record_in(self.0)?;
        let kind = kind_in(self.0);
        let n = bytes.len();
        self.0 = &self.0[n..];
        Some(parsed(kind, bytes))
    }
}

// The lines of all of them.
#[derive(Clone, Copy)]
pub struct StackLines<'a>(pub &'a [u8]);

impl fmt::Display for StackLines<'_> {
    ghost output = { λ s. Some (log_lines s.0.now) };

    fn fmt<W: fmt::Write>(&self, f: &mut fmt::Formatter<W>) -> fmt::Result {
        for record in Records(self.0) {
            record.fmt(f)?;
        }
        Ok(())
    }
}
