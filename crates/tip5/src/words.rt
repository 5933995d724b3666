// Copying words.
ghost use Rattle.std.specs.Prelude.{◌≡◌, ◌+◌, ◌≤◌, length, take};
ghost use Rattle.std.proofs.Math.Seq.{paste};

// The first n words of src go into dst, the first of them to the place at.
pub fn copy(dst: &mut [u64], at: usize, src: &[u64], n: usize)
    requires { (at + n ≤ length dst.old) × (n ≤ length src.now) }
    ensures { dst.new ≡ paste dst.old at src.now n }
{
    dst[at..at + n].copy_from_slice(&src[..n]);
}

// The first N of sixteen words.
pub fn first<const N: usize>(words: &[u64; 16]) -> [u64; N]
    requires { N ≤ 16 }
    ensures { result ≡ take N words.now }
{
    let mut out = [0; N];
    out.copy_from_slice(&words[..N]);
    out
}
