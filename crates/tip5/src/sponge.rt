// The sponge: sixteen words, of which the first ten take in and give out.
ghost use Rattle.std.specs.Prelude.{◌≡◌, ◌++◌, drop};
ghost use Rattle.tip5.specs.Sponge.{capacity_of, new_of, permuted_sponge, absorb_of, squeeze_of};

use crate::permutation::permuted;
use crate::words::first;

// Sixteen words with a mark whether they are set. An Option would lose the words of a sponge that is not set, and C has them back as they were.
#[derive(Clone, Copy, PartialEq, Eq, Debug)]
pub struct Sponge {
    pub words: [u64; 16],
    pub set: bool,
}

// Inputs of ten words and inputs of any length start from different words 10 to 15.
#[derive(Clone, Copy, PartialEq, Eq, Debug)]
pub enum Domain {
    VariableLength,
    FixedLength,
}

// What a squeeze gives: ten words, and the sponge after it.
#[derive(Clone, Copy, PartialEq, Eq, Debug)]
pub struct Squeezed {
    pub words: [u64; 10],
    pub sponge: Sponge,
}

impl Domain {
    fn capacity(self) -> u64
        ensures { result ≡ capacity_of self }
    {
        match self {
            Domain::VariableLength => 0,
            Domain::FixedLength => 1,
        }
    }
}

fn overwritten(mut words: [u64; 16], block: [u64; 10]) -> [u64; 16]
    ensures { result ≡ block ++ drop 10 words }
{
    words[..10].copy_from_slice(&block);
    words
}

impl Sponge {
    pub fn new(domain: Domain) -> Sponge
        ensures { result ≡ new_of domain }
    {
        let c = domain.capacity();
        Sponge {
            words: [0, 0, 0, 0, 0, 0, 0, 0, 0, 0, c, c, c, c, c, c],
            set: true,
        }
    }

    pub fn init() -> Sponge
        ensures { result ≡ new_of Domain.VariableLength }
    {
        Sponge::new(Domain::VariableLength)
    }

    pub fn permutation(self) -> Sponge
        ensures { result ≡ permuted_sponge self }
    {
        let words = self.words;
        Sponge {
            words: permuted(words),
            set: self.set,
        }
    }

    // The first ten words are overwritten by the block, then all are permuted.
    pub fn absorb(self, block: [u64; 10]) -> Sponge
        ensures { result ≡ absorb_of self block }
    {
        let words = self.words;
        Sponge {
            words: permuted(overwritten(words, block)),
            set: self.set,
        }
    }

    // The first ten words are given out, then all are permuted.
    pub fn squeeze(self) -> Squeezed
        ensures { result ≡ squeeze_of self }
    {
        let words = self.words;
        Squeezed {
            words: first(&words),
            sponge: self.permutation(),
        }
    }
}
