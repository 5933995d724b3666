// The lines that runjob prints, and the text of each.
ghost use Rattle.std.specs.Prelude.{◌≡◌, length, Some};
ghost use Rattle.job.specs.Listing.{direction_text, stack_line, out_line, Before};
ghost use Rattle.job.specs.ListingView.{direction_number, stack_text_of, counts_text, end_text};
ghost use Rattle.job.specs.Printed.{out_lines};

use crate::from_end::{field_before, text_before};
pub use crate::put::{halted_line, out_line, out_lines, refused_line, spent_line, stack_line};
use std::fmt;
use std::str::from_utf8_unchecked;

// Whether a word was read from the op stack's underflow or written to it.
#[derive(Clone, Copy)]
pub enum Direction {
    Read,
    Write,
}

impl Direction {
    fn text(self) -> &'static str
        ensures { result.now ≡ direction_text (direction_number self) }
    {
        match self {
            Direction::Read => "read ",
            Direction::Write => "write ",
        }
    }
}

impl fmt::Display for Direction {
    ghost output = { λ d. Some (direction_text (direction_number d)) };

    fn fmt<W: fmt::Write>(&self, f: &mut fmt::Formatter<W>) -> fmt::Result {
        f.write_str(self.text())
    }
}

// A record of the op stack. Its line is put together in a buffer of the greatest length and written at once: its eight parts written one by one
// took 1.5 times as many instructions for a listing of 15.7 MB.
#[derive(Clone, Copy)]
pub struct StackLine {
    pub clock: u64,
    pub pointer: u64,
    pub direction: Direction,
    pub value: u64,
}

// The line in the last bytes of b, and where it starts.
#[inline(always)]
fn stack_line_before(
    b: &mut [u8],
    clock: u64,
    pointer: u64,
    direction: Direction,
    value: u64,
) -> usize
    requires { length b.old ≡ 75 }
    ensures { Before b.old b.new 75 (stack_line clock pointer (direction_number direction) value) result }
{
    let fourth = field_before(b, 75, value, 10);
    let third = text_before(b, fourth, direction.text().as_bytes());
    let second = field_before(b, third, pointer, 32);
    let first = field_before(b, second, clock, 32);
    text_before(b, first, b"stack ")
}

impl fmt::Display for StackLine {
    ghost output = { λ l. Some (stack_text_of l) };

    fn fmt<W: fmt::Write>(&self, f: &mut fmt::Formatter<W>) -> fmt::Result {
        let clock = self.clock;
        let pointer = self.pointer;
        let value = self.value;
        let mut line = [0u8; 75];
        let start = stack_line_before(&mut line, clock, pointer, self.direction, value);
        // that the bytes are text is proved, and not looked at once more
        f.write_str(unsafe { from_utf8_unchecked(&line[start..]) })
    }
}

// A word of the output.
#[derive(Clone, Copy)]
pub struct OutLine(pub u64);

impl fmt::Display for OutLine {
    ghost output = { λ l. Some (out_line l.0) };

    fn fmt<W: fmt::Write>(&self, f: &mut fmt::Formatter<W>) -> fmt::Result {
        let word = self.0;
        write!(f, "out {word}\n")
    }
}

// A line for each word of the output.
#[derive(Clone, Copy)]
pub struct OutLines<'a>(pub &'a [u64]);

impl fmt::Display for OutLines<'_> {
    ghost output = { λ l. Some (out_lines l.0.now) };

    fn fmt<W: fmt::Write>(&self, f: &mut fmt::Formatter<W>) -> fmt::Result {
        for word in self.0 {
            write!(f, "{}", OutLine(*word))?;
        }
        Ok(())
    }
}

// What every end line ends in.
#[derive(Clone, Copy)]
pub struct Counts {
    pub steps: u64,
    pub pointer: u64,
    pub depth: u64,
}

impl fmt::Display for Counts {
    ghost output = { λ c. Some (counts_text c) };

    fn fmt<W: fmt::Write>(&self, f: &mut fmt::Formatter<W>) -> fmt::Result {
        let steps = self.steps;
        let pointer = self.pointer;
        let depth = self.depth;
        write!(f, "{steps} {pointer} {depth}\n")
    }
}

// How the job ended. A refusal has its number.
#[derive(Clone, Copy)]
pub enum EndLine {
    Halted(Counts),
    Spent(Counts),
    Refused(u64, Counts),
}

impl fmt::Display for EndLine {
    ghost output = { λ l. Some (end_text l) };

    fn fmt<W: fmt::Write>(&self, f: &mut fmt::Formatter<W>) -> fmt::Result {
        match self {
            EndLine::Halted(counts) => write!(f, "end halted {counts}"),
            EndLine::Spent(counts) => write!(f, "end spent {counts}"),
            EndLine::Refused(number, counts) => {
                let number = *number;
                write!(f, "end refused {number} {counts}")
            }
        }
    }
}
