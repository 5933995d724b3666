// The field and Tip5 for the benchmark's driver in Rust.
#![tactic(auto)]

ghost use Rattle.std.specs.Prelude.{◌≡◌};
ghost use Rattle.field.specs.Base.{mul_p};
ghost use Rattle.tip5.specs.Permutation.{Permuted};

use field::base;
use tip5::permutation::{permuted, trace};

#[unsafe(no_mangle)]
pub extern "C" fn bench_mul(a: u64, b: u64) -> u64
    ensures { result ≡ mul_p a b }
{
    base::mul(a, b)
}

// n products one after the other.
#[unsafe(no_mangle)]
pub extern "C" fn bench_mul_chain(a: u64, b: u64, n: u64) -> u64 {
    (0..n).fold(a, |x, _| base::mul(x, b))
}

// Each element times b.
#[unsafe(no_mangle)]
pub extern "C" fn bench_mul_all(d: &mut [u64], b: u64) {
    for x in d {
        *x = base::mul(*x, b);
    }
}

#[unsafe(no_mangle)]
pub extern "C" fn bench_permutation(s: &mut [u64; 16])
    ensures { Permuted s.old s.new }
{
    *s = permuted(*s);
}

#[unsafe(no_mangle)]
pub extern "C" fn bench_trace(s: &[u64; 16], out: &mut [u64; 96]) {
    *out = trace(*s);
}
