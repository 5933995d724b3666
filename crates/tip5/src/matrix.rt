// The circulant matrix. With the words j and j + 8 as a sum and as a difference, row i is half the sum of two rows of
// half the length, and row i + 8 half their difference; the first of the two, over the sums, is circulant again.
// Differences stand above 2^33, those of coefficients above 2^17, so that no number is below 0.
ghost use Rattle.std.specs.Prelude.{◌≡◌, ◌+◌, ◌*◌, ◌<◌, ◌≤◌, ◌^◌, true, false, sum, take, get_or};
ghost use Rattle.tip5.specs.Split.{Below, coefficients, halves_of, pairs_of, dot_of, dots_of, shift_of, low_of, high_of, Ready, Joinable, joined_at, row8, product_of};
ghost use Rattle.tip5.specs.Tab.{tab};

use field::base;

// From 0 the differences of the coefficients of the whole rows, from 15 those of the rows of eight, from 22 the sums for
// the rows of four, from 29 and 37 the sums of the differences of each row.
static COEFFICIENTS: [u32; 41] = [
    125261, 158139, 114627, 126505, 123994, 118471, 104659, 135523, 136883, 104005, 147517, 135639,
    138150, 143673, 157485, 175917, 120510, 56768, 229950, 86227, 141634, 205376, 104603, 150764,
    131562, 137828, 104603, 150764, 131562, 1098875, 1046049, 1020847, 1006691, 997557, 964667,
    1018801, 1007179, 663187, 514579, 493455, 583145,
];

pub fn coefficient_table() -> &'static [u32; 41]
    ensures { result.now ≡ coefficients }
{
    &COEFFICIENTS
}

fn coefficient(place: usize) -> u64
    requires { place < 41 }
    ensures { result ≡ get_or coefficients place 0 }
{
    u64::from(coefficient_table()[place])
}

// A function for each half, as field has one.

pub fn lower_halves(s: &[u64; 16]) -> [u64; 16]
    ensures { (result ≡ halves_of false s.now) × (Below result (2 ^ 32)) }
{
    std::array::from_fn(|i| base::low(s[i]))
}

pub fn upper_halves(s: &[u64; 16]) -> [u64; 16]
    ensures { (result ≡ halves_of true s.now) × (Below result (2 ^ 32)) }
{
    std::array::from_fn(|i| base::high(s[i]))
}

// The loops below write by index: a closure in a function with a const parameter would need clauses of its own. Sums and differences
// are two functions for the same reason: an operation handed in would have to say what it asks of two numbers.

// The sums of the numbers j and j + N.
fn sums<const M: usize, const N: usize>(x: &[u64; M]) -> [u64; N]
    requires { (M ≡ N + N) × (N ≤ 8) × (Below x.now (2 ^ 33)) }
    ensures { result ≡ take N (pairs_of false N x.now) }
{
    let mut out = [0; N];
    for j in 0..N {
        out[j] = x[j] + x[j + N];
    }
    out
}

// Their differences, above 2^33.
fn differences<const M: usize, const N: usize>(x: &[u64; M]) -> [u64; N]
    requires { (M ≡ N + N) × (N ≤ 8) × (Below x.now (2 ^ 33)) }
    ensures { result ≡ take N (pairs_of true N x.now) }
{
    let mut out = [0; N];
    for j in 0..N {
        out[j] = x[j] + 0x2_0000_0000 - x[j + N];
    }
    out
}

// The sum of the products of the coefficients from a place on with the numbers of x. It stays below 2^64, so that it needs none of
// field's products, which reduce each.
fn dot<const N: usize>(at: usize, x: &[u64; N]) -> u64
    requires { (at + N ≤ 41) × (N ≤ 8) × (Below x.now (2 ^ 34)) }
    ensures { result ≡ dot_of at x.now N }
{
    let mut sum = 0;
    for j in 0..N {
        sum += coefficient(at + j) * x[j];
    }
    sum
}

// N rows of N products.
fn dots<const N: usize>(at: usize, x: &[u64; N]) -> [u64; N]
    requires { (at + 2 * N ≤ 41) × (N ≤ 8) × (Below x.now (2 ^ 34)) }
    ensures { result ≡ tab (dots_of at x.now N) N }
{
    let mut out = [0; N];
    for i in 0..N {
        out[i] = dot(at + (N - 1 - i), x);
    }
    out
}

fn total<const N: usize>(x: &[u64; N]) -> u64
    requires { sum x.now < 2 ^ 64 }
    ensures { result ≡ sum x.now }
{
    x.iter().sum()
}

// What the differences' standing above adds to row i, where their total is s.
fn shift(at: usize, i: usize, s: u64) -> u64
    requires { (at + i < 41) × (s < 2 ^ 38) }
    ensures { result ≡ shift_of at s i }
{
    coefficient(at + i) * 0x2_0000_0000 + s * 0x2_0000
}

// Row i, from the row p over the sums and the row q over the differences. Row i + n has the same numbers with other signs: one function
// for both would take a flag.
fn low(p: u64, q: u64, o: u64, n: usize) -> u64
    requires { (n ≤ 8) × (Ready p q o n) }
    ensures { result ≡ low_of p q o n }
{
    (p + q + n as u64 * 0x4_0000_0000_0000 - o) / 2
}

// Row i + n.
fn high(p: u64, q: u64, o: u64, n: usize) -> u64
    requires { (n ≤ 8) × (Ready p q o n) }
    ensures { result ≡ high_of p q o n }
{
    (p + o - (q + n as u64 * 0x4_0000_0000_0000)) / 2
}

fn joined_row<const N: usize>(at: usize, p: &[u64; N], q: &[u64; N], s: u64, i: usize) -> u64
    requires { (i < N + N) × (at + N ≤ 41) × (Joinable p.now q.now at s N) }
    ensures { result ≡ joined_at p.now q.now at s N i }
{
    if i < N {
        low(p[i], q[i], shift(at, i, s), N)
    } else {
        let j = i - N;
        high(p[j], q[j], shift(at, j, s), N)
    }
}

// The N + N rows, from those over the sums and those over the differences, whose total is s.
fn joined<const N: usize, const M: usize>(at: usize, p: &[u64; N], q: &[u64; N], s: u64) -> [u64; M]
    requires { (M ≡ N + N) × (at + N ≤ 41) × (Joinable p.now q.now at s N) }
    ensures { result ≡ tab (joined_at p.now q.now at s N) M }
{
    let mut out = [0; M];
    for i in 0..N + N {
        out[i] = joined_row(at, p, q, s, i);
    }
    out
}

// The eight rows over the sums of the words.
fn cyclic_8(x: &[u64; 8]) -> [u64; 8]
    requires { Below x.now (2 ^ 33) }
    ensures { result ≡ tab (row8 x.now) 8 }
{
    let e: [u64; 4] = sums(x);
    let d: [u64; 4] = differences(x);
    joined(37, &dots(22, &e), &dots(15, &d), total(&d))
}

// The matrix times x, not reduced: as cyclic_8 at twice the size, its rows over the sums made by cyclic_8. One function for both would
// be handed a closure that makes these rows, with clauses.
pub fn mds(x: &[u64; 16]) -> [u64; 16]
    requires { Below x.now (2 ^ 32) }
    ensures { (result ≡ product_of x.now) × (Below result (2 ^ 53)) }
{
    let e: [u64; 8] = sums(x);
    let d: [u64; 8] = differences(x);
    joined(29, &cyclic_8(&e), &dots(0, &d), total(&d))
}
