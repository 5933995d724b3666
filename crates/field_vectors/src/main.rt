// Writes what the field's functions answer on edge values, a line each. The figures in the file `stdout`, which it must write, are Python's
// (host/vectors/field_vectors.py).
#![tactic(auto)]

ghost use Rattle.std.specs.Prelude.{◌<◌};
ghost use Rattle.field.specs.Base.{p};
ghost use Rattle.field.specs.Extension.{WordsX};

use field::base;
use field::extension::XFieldElement;
use std::{fmt, io};

// ---- words

// The i-th of eight words: where a carry or a borrow is near, and one with no pattern.
fn word(i: u64) -> u64
    ensures { result < p }
{
    match i {
        0 => 0,
        1 => 1,
        2 => 2,
        3 => 0xffff_ffff,
        4 => 0x1_0000_0000,
        5 => 0x0123_4567_89ab_cdef,
        6 => 0xffff_fffe_ffff_ffff,
        _ => 0xffff_ffff_0000_0000,
    }
}

// The i-th of six numbers of 64 bits, most of them no words.
fn number(i: u64) -> u64 {
    match i {
        0 => 0xffff_ffff,
        1 => 0x1_0000_0000,
        2 => 0x8000_0000_0000_0000,
        3 => 0xffff_ffff_0000_0001,
        4 => 0xffff_ffff_0000_0002,
        _ => 0xffff_ffff_ffff_ffff,
    }
}

fn line1<T: Copy + fmt::Display>(rt: &impl Print, name: &str, x: T, r: T) -> io::Result<()> {
    println!(rt; "{name} {x} = {r}")
}

fn line2<T: Copy + fmt::Display>(rt: &impl Print, name: &str, x: T, y: T, r: T) -> io::Result<()> {
    println!(rt; "{name} {x} {y} = {r}")
}

fn of_word(rt: &impl Print, a: u64) -> io::Result<()>
    requires { a < p }
{
    line1(rt, "neg", a, base::neg(a))?;
    line1(rt, "inverse", a, base::inverse_or_zero(a))
}

fn of_words(rt: &impl Print, a: u64, b: u64) -> io::Result<()>
    requires { (a < p) × (b < p) }
{
    line2(rt, "add", a, b, base::add(a, b))?;
    line2(rt, "sub", a, b, base::sub(a, b))?;
    line2(rt, "mul", a, b, base::mul(a, b))?;
    line2(rt, "pow", a, b, base::mod_pow(a, b))
}

fn of_numbers(rt: &impl Print, a: u64, b: u64) -> io::Result<()> {
    line2(rt, "mul", a, b, base::mul(a, b))?;
    line2(rt, "reduce", a, b, base::reduce(a, b))
}

// One loop for the pairs, whose first turns take each word alone too.
fn words(rt: &impl Print) -> io::Result<()> {
    for i in 0..64 {
        if i < 8 {
            of_word(rt, word(i))?;
        }
        of_words(rt, word(i / 8), word(i % 8))?;
    }
    Ok(())
}

fn numbers(rt: &impl Print) -> io::Result<()> {
    for i in 0..36 {
        of_numbers(rt, number(i / 6), number(i % 6))?;
    }
    Ok(())
}

// ---- extension words

// The i-th of seven extension words: 0, 1, X, X^2, -1 in each place, and two with no pattern.
fn element(i: u64) -> XFieldElement
    ensures { WordsX result }
{
    match i {
        0 | 1 => XFieldElement::from(i),
        2 => XFieldElement {
            c0: 0,
            c1: 1,
            c2: 0,
        },
        3 => XFieldElement {
            c0: 0,
            c1: 0,
            c2: 1,
        },
        4 => XFieldElement {
            c0: 0xffff_ffff_0000_0000,
            c1: 0xffff_ffff_0000_0000,
            c2: 0xffff_ffff_0000_0000,
        },
        5 => XFieldElement {
            c0: 0x0123_4567_89ab_cdef,
            c1: 0xfedc_ba98_7654_3210,
            c2: 0x0f1e_2d3c_4b5a_6978,
        },
        _ => XFieldElement {
            c0: 0xffff_ffff,
            c1: 0,
            c2: 0x1_0000_0000,
        },
    }
}

fn of_element(rt: &impl Print, x: XFieldElement) -> io::Result<()>
    requires { WordsX x }
{
    line1(rt, "neg", x, -x)?;
    line1(rt, "inverse", x, x.inverse_or_zero())?;
    line1(
        rt,
        "scale 18446744069414584319",
        x,
        x.scale(18446744069414584319),
    )
}

fn of_elements(rt: &impl Print, x: XFieldElement, y: XFieldElement) -> io::Result<()>
    requires { (WordsX x) × (WordsX y) }
{
    line2(rt, "add", x, y, x + y)?;
    line2(rt, "sub", x, y, x - y)?;
    line2(rt, "mul", x, y, x * y)
}

fn elements(rt: &impl Print) -> io::Result<()> {
    for i in 0..49 {
        if i < 7 {
            of_element(rt, element(i))?;
        }
        of_elements(rt, element(i / 7), element(i % 7))?;
    }
    Ok(())
}

fn main(rt: HostRuntime) -> io::Result<()> {
    words(&rt)?;
    numbers(&rt)?;
    elements(&rt)
}
