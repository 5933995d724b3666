// Arithmetic on words. A word is a u64 below P; products take any u64.
ghost use Rattle.std.specs.Prelude.{◌≡◌, ◌+◌, ◌*◌, ◌-◌, ◌/◌, ◌%◌, ◌^◌, ◌<◌, ltb};
ghost use Rattle.field.specs.Base.{p, add_p, sub_p, neg_p, mul_p, pow_p, inverse_p};

pub const P: u64 = 0xffff_ffff_0000_0001;

pub fn add(a: u64, b: u64) -> u64
    requires { (a < p) × (b < p) }
    ensures { result ≡ add_p a b }
{
    let c = P - b;
    if a < c { a + b } else { a - c }
}

pub fn sub(a: u64, b: u64) -> u64
    requires { (a < p) × (b < p) }
    ensures { result ≡ sub_p a b }
{
    if b <= a { a - b } else { a + (P - b) }
}

pub fn neg(a: u64) -> u64
    requires { a < p }
    ensures { result ≡ neg_p a }
{
    if a == 0 { 0 } else { P - a }
}

// The upper 64 bits of a * b.
pub fn mul_hi(a: u64, b: u64) -> u64
    ensures { result ≡ a * b / 2 ^ 64 }
{
    (u128::from(a) * u128::from(b) / 0x1_0000_0000_0000_0000) as u64
}

// The lower 64 bits of a * b.
pub fn mul_lo(a: u64, b: u64) -> u64
    ensures { result ≡ a * b % 2 ^ 64 }
{
    a.wrapping_mul(b)
}

// hi * 2^64 + lo, for any two numbers of 64 bits: modulo P, 2^64 is 2^32 - 1 and 2^96 is -1.
pub fn reduce(hi: u64, lo: u64) -> u64
    ensures { result ≡ (hi * 2 ^ 64 + lo) % p }
{
    let h = high(hi);
    let m = low(hi) * 0xffff_ffff;
    let t = if h <= lo { lo - h } else { lo + (P - h) };
    let c = P - m;
    if t < c { t + m } else { t - c }
}

pub fn mul(a: u64, b: u64) -> u64
    ensures { result ≡ mul_p a b }
{
    reduce(mul_hi(a, b), mul_lo(a, b))
}

// base to the exponent, by squaring.
pub fn mod_pow(base: u64, exponent: u64) -> u64
    ensures { result ≡ pow_p base exponent }
{
    let mut acc: u64 = 1;
    let mut b = base;
    let mut k = exponent;
    while 0 < k {
        if k % 2 == 1 {
            acc = mul(acc, b);
        }
        b = mul(b, b);
        k = k / 2;
    }
    acc
}

// x squared n times.
fn squared(x: u64, n: u64) -> u64
    requires { x < p }
    ensures { result ≡ pow_p x (2 ^ n) }
{
    let mut r = x;
    for _ in 0..n {
        r = mul(r, r);
    }
    r
}

// The inverse of a word, and 0 for 0: a to the P - 2, which is 2^64 - 2^32 - 1, by a chain of 63 squarings and 9 products.
pub fn inverse_or_zero(a: u64) -> u64
    requires { a < p }
    ensures { result ≡ inverse_p a }
{
    let e2 = mul(mul(a, a), a);
    let e3 = mul(mul(e2, e2), a);
    let e6 = mul(squared(e3, 3), e3);
    let e12 = mul(squared(e6, 6), e6);
    let e24 = mul(squared(e12, 12), e12);
    let e30 = mul(squared(e24, 6), e6);
    let e31 = mul(mul(e30, e30), a);
    let e31_0 = mul(e31, e31);
    let e32 = mul(e31_0, a);
    mul(squared(e31_0, 32), e32)
}

// The inverse of a word other than 0.
pub fn inverse(a: u64) -> u64
    requires { (a < p) × (0 < a) }
    ensures { (result ≡ inverse_p a) × (mul_p a result ≡ 1) }
{
    inverse_or_zero(a)
}

// Whether a number is a word.
pub fn is_word(x: u64) -> bool
    ensures { result ≡ ltb x p }
{
    x < P
}

// Whether a number has 32 bits.
pub fn is_u32(x: u64) -> bool
    ensures { result ≡ ltb x (2 ^ 32) }
{
    x < 0x1_0000_0000
}

// A function for each half: one for both would take a flag that says which.

// The upper half of x.
pub fn high(x: u64) -> u64
    ensures { (result ≡ x / 2 ^ 32) × (result < 2 ^ 32) }
{
    x / 0x1_0000_0000
}

// The lower half of x.
pub fn low(x: u64) -> u64
    ensures { (result ≡ x % 2 ^ 32) × (result < 2 ^ 32) }
{
    x % 0x1_0000_0000
}
