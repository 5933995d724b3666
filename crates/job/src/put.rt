// The lines of `listing` and `log_lines` put into a lent buffer, which cannot fail: for callers of this crate that have no writer. Each puts its text behind
// place `at` and gives the place behind it.
ghost use Rattle.std.specs.Prelude.{◌≡◌, [] as Nil, ◌∷◌, ◌+◌, ◌*◌, ◌≤◌, ◌<◌, length, take, drop};
ghost use Rattle.machine.specs.Records.{length_of, record_of};
ghost use Rattle.job.specs.Frame.{kind_in, size_by};
ghost use Rattle.job.specs.Listing.{decimal_of, field_of, direction_text, stack_line, out_line, counts_of, halted_line, spent_line, refused_line, Put};
ghost use Rattle.job.specs.ListingView.{direction_number};
ghost use Rattle.job.specs.LogLines.{line_of, log_lines};
ghost use Rattle.job.specs.Printed.{out_lines};

use crate::frame::kind_in;
use crate::from_end::digit;
use crate::listing::Direction;
use crate::log_lines::{record_in, stack_line_in};

// ---- texts and numbers

fn put_byte(b: &mut [u8], at: usize, v: u8) -> usize
    requires { at < length b.old }
    ensures { Put b.old b.new at (v ∷ Nil) 1 result }
{
    b[at] = v;
    at + 1
}

fn put_text(b: &mut [u8], at: usize, text: &[u8]) -> usize
    requires { at + length text.now ≤ length b.old }
    ensures { Put b.old b.new at text.now (length text.now) result }
{
    let mut next = at;
    let mut i = 0;
    while i < text.len() {
        next = put_byte(b, next, text[i]);
        i += 1;
    }
    next
}

// Calls itself at most nineteen times.
fn put_decimal(b: &mut [u8], at: usize, v: u64) -> usize
    requires { at + length (decimal_of v) ≤ length b.old }
    ensures { Put b.old b.new at (decimal_of v) 20 result }
{
    if v < 10 {
        return put_byte(b, at, digit(v));
    }
    let next = put_decimal(b, at, v / 10);
    put_byte(b, next, digit(v % 10))
}

// A number, and a byte behind it.
fn put_field(b: &mut [u8], at: usize, v: u64, mark: u8) -> usize
    requires { at + 21 ≤ length b.old }
    ensures { Put b.old b.new at (field_of v mark) 21 result }
{
    let next = put_decimal(b, at, v);
    put_byte(b, next, mark)
}

fn put_direction(b: &mut [u8], at: usize, dir: u8) -> usize
    requires { at + 6 ≤ length b.old }
    ensures { Put b.old b.new at (direction_text dir) 6 result }
{
    if dir == 0 {
        put_text(b, at, b"read ")
    } else {
        put_text(b, at, b"write ")
    }
}

// ---- lines

pub fn stack_line(b: &mut [u8], at: usize, clock: u64, pointer: u64, dir: u8, value: u64) -> usize
    requires { at + 75 ≤ length b.old }
    ensures { Put b.old b.new at (stack_line clock pointer dir value) 75 result }
{
    let first = put_text(b, at, b"stack ");
    let second = put_field(b, first, clock, 32);
    let third = put_field(b, second, pointer, 32);
    let fourth = put_direction(b, third, dir);
    put_field(b, fourth, value, 10)
}

pub fn out_line(b: &mut [u8], at: usize, word: u64) -> usize
    requires { at + 25 ≤ length b.old }
    ensures { Put b.old b.new at (out_line word) 25 result }
{
    let next = put_text(b, at, b"out ");
    put_field(b, next, word, 10)
}

// Steps, pointer, depth, and the line's end.
fn put_counts(b: &mut [u8], at: usize, steps: u64, pointer: u64, depth: u64) -> usize
    requires { at + 63 ≤ length b.old }
    ensures { Put b.old b.new at (counts_of steps pointer depth) 63 result }
{
    let first = put_field(b, at, steps, 32);
    let second = put_field(b, first, pointer, 32);
    put_field(b, second, depth, 10)
}

pub fn halted_line(b: &mut [u8], at: usize, steps: u64, pointer: u64, depth: u64) -> usize
    requires { at + 74 ≤ length b.old }
    ensures { Put b.old b.new at (halted_line steps pointer depth) 74 result }
{
    let next = put_text(b, at, b"end halted ");
    put_counts(b, next, steps, pointer, depth)
}

pub fn spent_line(b: &mut [u8], at: usize, steps: u64, pointer: u64, depth: u64) -> usize
    requires { at + 73 ≤ length b.old }
    ensures { Put b.old b.new at (spent_line steps pointer depth) 73 result }
{
    let next = put_text(b, at, b"end spent ");
    put_counts(b, next, steps, pointer, depth)
}

pub fn refused_line(
    b: &mut [u8],
    at: usize,
    number: u64,
    steps: u64,
    pointer: u64,
    depth: u64,
) -> usize
    requires { at + 96 ≤ length b.old }
    ensures { Put b.old b.new at (refused_line number steps pointer depth) 96 result }
{
    let first = put_text(b, at, b"end refused ");
    let second = put_field(b, first, number, 32);
    put_counts(b, second, steps, pointer, depth)
}

// An out line for each word.
pub fn out_lines(b: &mut [u8], at: usize, words: &[u64]) -> usize
    requires { at + 25 * length words.now ≤ length b.old }
    ensures { Put b.old b.new at (out_lines words.now) (25 * length words.now) result }
{
    let mut next = at;
    let mut i = 0;
    while i < words.len() {
        next = out_line(b, next, words[i]);
        i += 1;
    }
    next
}

// ---- a log's lines

fn direction_byte(direction: Direction) -> u8
    ensures { result ≡ direction_number direction }
{
    match direction {
        Direction::Read => 0,
        Direction::Write => 1,
    }
}

// The line of the record of kind 4 at place `at`, behind place `to`.
pub fn stack_line_at(log: &[u8], at: usize, out: &mut [u8], to: usize) -> usize
    requires { (at + 25 ≤ length log.now) × (to + 75 ≤ length out.old) }
    ensures { Put out.old out.new to (line_of (record_of 4 (take 25 (drop at log.now)))) 75 result }
{
    let line = stack_line_in(&log[at..at + 25]);
    let dir = direction_byte(line.direction);
    stack_line(out, to, line.clock, line.pointer, dir, line.value)
}

// How many bytes the record at place `at` has; 0 where no whole one stands.
pub fn record_length(log: &[u8], at: usize) -> usize
    requires { at ≤ length log.now }
    ensures { result ≡ size_by (length_of 1) (drop at log.now) }
{
    match record_in(&log[at..]) {
        Some(bytes) => bytes.len(),
        None => 0,
    }
}

// Its kind.
pub fn kind_at(log: &[u8], at: usize) -> u64
    requires { at + 4 ≤ length log.now }
    ensures { result ≡ kind_in (drop at log.now) }
{
    kind_in(&log[at..])
}

// The line of the record of n bytes at place `at`, if its kind has one.
fn line_at(log: &[u8], at: usize, n: usize, out: &mut [u8], to: usize) -> usize
    requires { (at ≤ length log.now) × (0 < n) × (n ≡ size_by (length_of 1) (drop at log.now)) × (to + 3 * n ≤ length out.old) }
    ensures { Put out.old out.new to
        (line_of (record_of (kind_in (drop at log.now)) (take n (drop at log.now)))) (3 * n) result }
{
    if kind_at(log, at) == 4 {
        stack_line_at(log, at, out, to)
    } else {
        to
    }
}

// All of them, behind place `to`. A line is at most three times as long as its record.
pub fn stack_lines(log: &[u8], out: &mut [u8], to: usize) -> usize
    requires { to + 3 * length log.now ≤ length out.old }
    ensures { Put out.old out.new to (log_lines log.now) (3 * length log.now) result }
{
    let mut at = 0;
    let mut next = to;
    let mut n = record_length(log, at);
    while 0 < n {
        next = line_at(log, at, n, out, next);
        at += n;
        n = record_length(log, at);
    }
    next
}
