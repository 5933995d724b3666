// Numbers are chosen and not branched on: a number of 0 is none.
#![tactic(auto, unfolding(crate::specs::Choice::first_of, crate::specs::Choice::above_of, crate::specs::Choice::differ_of))]

ghost use Rattle.std.specs.Prelude.{◌≡◌, min};
ghost use Rattle.choices.specs.Choice.{first_of, above_of, differ_of};

// The first number that is not 0.
pub fn first(a: u64, b: u64) -> u64
    ensures { result ≡ first_of a b }
{
    if a == 0 { b } else { a }
}

// n where a is above b.
pub fn above(a: usize, b: usize, n: u64) -> u64
    ensures { result ≡ above_of a b n }
{
    if b < a { n } else { 0 }
}

// n where a and b differ.
pub fn differ(a: usize, b: usize, n: u64) -> u64
    ensures { result ≡ differ_of a b n }
{
    if a == b { 0 } else { n }
}

// The lesser of two.
pub fn least(a: usize, b: usize) -> usize
    ensures { result ≡ min a b }
{
    a.min(b)
}
