// The S-box layer: split-and-lookup of words 0 to 3, the seventh power of words 4 to 15.
ghost use Rattle.std.specs.Prelude.{◌≡◌, ◌<◌};
ghost use Rattle.field.specs.Base.{pow_p};
ghost use Rattle.tip5.specs.Sbox.{sbox_of, sbox_layer_of};

use crate::split_and_lookup::split_and_lookup;
use field::base;

fn seventh(x: u64) -> u64
    ensures { result ≡ pow_p x 7 }
{
    let x2 = base::mul(x, x);
    let x3 = base::mul(x2, x);
    let x6 = base::mul(x3, x3);
    base::mul(x6, x)
}

// What becomes of x as word i.
fn sbox(i: usize, x: u64) -> u64
    ensures { result ≡ sbox_of i x }
{
    if i < 4 {
        split_and_lookup(x)
    } else {
        seventh(x)
    }
}

pub fn sbox_layer(s: &[u64; 16]) -> [u64; 16]
    ensures { result ≡ sbox_layer_of s.now }
{
    std::array::from_fn(|i| sbox(i, s[i]))
}
