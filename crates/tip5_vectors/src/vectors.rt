// What the vectors compute.
ghost use Rattle.std.specs.Prelude.{◌<◌};
ghost use Rattle.tip5.specs.Words.{Words};
ghost use Rattle.tip5_vectors.specs.Words.{AreWords};

use field::base;
use tip5::hash::{hash_10, hash_varlen};

// From ten zeros, six times: words i to i + 4 become the digest of all ten. The digest of the result.
pub fn chained() -> [u64; 5] {
    let mut words = [0u64; 10];
    for i in 0..6 {
        let digest = hash_10(words);
        words[i..i + 5].copy_from_slice(&digest);
    }
    hash_10(words)
}

// The numbers 0, 1, 2 and so on.
pub fn numbers<const N: usize>() -> [u64; N] {
    std::array::from_fn(|i| i as u64)
}

fn add_digests(a: &[u64; 5], b: &[u64; 5]) -> [u64; 5]
    requires { (Words a.now) × (Words b.now) }
    ensures { AreWords result }
{
    std::array::from_fn(|i| base::add(a[i], b[i]))
}

// The digest of the first n numbers.
fn digest_of(n: usize) -> [u64; 5]
    requires { n < 20 }
    ensures { AreWords result }
{
    let all: [u64; 19] = numbers();
    hash_varlen(&all[..n])
}

// The sum of the digests of the first n numbers, for n from 0 to 19.
pub fn varlen_sum() -> [u64; 5] {
    let mut sum = [0u64; 5];
    for n in 0..20 {
        sum = add_digests(&sum, &digest_of(n));
    }
    sum
}

fn by_rule(i: u8) -> u64 {
    let n = u64::from(i) + 1;
    (n * n * n - 1) % 257
}

// The first place where the table is not by the rule.
pub fn first_wrong(t: &[u8; 256]) -> Option<u8> {
    (0..=u8::MAX).find(|i| u64::from(t[usize::from(*i)]) != by_rule(*i))
}
