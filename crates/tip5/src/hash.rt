// Hashing: ten words, or words of any number, to a digest of five.
ghost use Rattle.std.specs.Prelude.{◌≡◌, ◌*◌, ◌≤◌, length, get_or};
ghost use Rattle.tip5.specs.Hash.{hash10_of, padded_of, block_of, hash_varlen_of};

use crate::sponge::{Domain, Sponge};
use crate::words::first;

// Ten words fill a block and are not padded, and they start in a domain of their own. So hash_varlen gives another digest of them.
pub fn hash_10(input: [u64; 10]) -> [u64; 5]
    ensures { result ≡ hash10_of input }
{
    let words = Sponge::new(Domain::FixedLength).absorb(input).words;
    first(&words)
}

// Word k of the padded input.
fn padded_word(input: &[u64], k: usize) -> u64
    ensures { result ≡ get_or (padded_of input.now) k 0 }
{
    if k < input.len() {
        input[k]
    } else if k == input.len() {
        1
    } else {
        0
    }
}

// Block n of the padded input.
fn block(input: &[u64], n: usize) -> [u64; 10]
    requires { 10 * n ≤ length input.now }
    ensures { result ≡ block_of n (padded_of input.now) }
{
    std::array::from_fn(|j| padded_word(input, 10 * n + j))
}

pub fn hash_varlen(input: &[u64]) -> [u64; 5]
    ensures { result ≡ hash_varlen_of input.now }
{
    let mut sponge = Sponge::init();
    for n in 0..input.len() / 10 + 1 {
        sponge = sponge.absorb(block(input, n));
    }
    let words = sponge.words;
    first(&words)
}
