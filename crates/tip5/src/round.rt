// A round: the S-box layer, then the matrix, then the round constants.
ghost use Rattle.std.specs.Prelude.{◌≡◌, ◌+◌, ◌*◌, ◌%◌, ◌<◌, ◌^◌, get_or};
ghost use Rattle.field.specs.Base.{p};
ghost use Rattle.tip5.specs.Matrix.{mds_of};
ghost use Rattle.tip5.specs.Split.{Below};
ghost use Rattle.tip5.specs.Round.{constants, constant_of, with_constants, round_of};

use crate::matrix::{lower_halves, mds, upper_halves};
use crate::sbox::sbox_layer;
use field::base;

// At 16 * r + i stands the constant of round r and word i.
static ROUND_CONSTANTS: [u64; 80] = [
    13630775303355457758,
    16896927574093233874,
    10379449653650130495,
    1965408364413093495,
    15232538947090185111,
    15892634398091747074,
    3989134140024871768,
    2851411912127730865,
    8709136439293758776,
    3694858669662939734,
    12692440244315327141,
    10722316166358076749,
    12745429320441639448,
    17932424223723990421,
    7558102534867937463,
    15551047435855531404,
    17532528648579384106,
    5216785850422679555,
    15418071332095031847,
    11921929762955146258,
    9738718993677019874,
    3464580399432997147,
    13408434769117164050,
    264428218649616431,
    4436247869008081381,
    4063129435850804221,
    2865073155741120117,
    5749834437609765994,
    6804196764189408435,
    17060469201292988508,
    9475383556737206708,
    12876344085611465020,
    13835756199368269249,
    1648753455944344172,
    9836124473569258483,
    12867641597107932229,
    11254152636692960595,
    16550832737139861108,
    11861573970480733262,
    1256660473588673495,
    13879506000676455136,
    10564103842682358721,
    16142842524796397521,
    3287098591948630584,
    685911471061284805,
    5285298776918878023,
    18310953571768047354,
    3142266350630002035,
    549990724933663297,
    4901984846118077401,
    11458643033696775769,
    8706785264119212710,
    12521758138015724072,
    11877914062416978196,
    11333318251134523752,
    3933899631278608623,
    16635128972021157924,
    10291337173108950450,
    4142107155024199350,
    16973934533787743537,
    11068111539125175221,
    17546769694830203606,
    5315217744825068993,
    4609594252909613081,
    3350107164315270407,
    17715942834299349177,
    9600609149219873996,
    12894357635820003949,
    4597649658040514631,
    7735563950920491847,
    1663379455870887181,
    13889298103638829706,
    7375530351220884434,
    3502022433285269151,
    9231805330431056952,
    9252272755288523725,
    10014268662326746219,
    15565031632950843234,
    1209725273521819323,
    6024642864597845108,
];

pub fn constant_table() -> &'static [u64; 80]
    ensures { result.now ≡ constants }
{
    &ROUND_CONSTANTS
}

fn constant_at(r: usize, i: usize) -> u64
    requires { (r < 5) × (i < 16) }
    ensures { result ≡ constant_of r i }
{
    constant_table()[16 * r + i]
}

// Row i, from the rows of the halves: hi * 2^32 + lo + k modulo p, where k is the constant of round r.
fn row(lo: &[u64; 16], hi: &[u64; 16], r: usize, i: usize) -> u64
    requires { (r < 5) × (i < 16) × (Below lo.now (2 ^ 53)) × (Below hi.now (2 ^ 53)) }
    ensures { result ≡ (get_or hi.now i 0 * 2 ^ 32 + get_or lo.now i 0 + constant_of r i) % p }
{
    let k = constant_at(r, i);
    let l = lo[i] + base::low(k);
    let z = hi[i] + base::high(k) + base::high(l);
    base::reduce(base::high(z), base::low(z) * 0x1_0000_0000 + base::low(l))
}

// The matrix times s by halves of the words, with the constants of round r.
fn linear_layer(s: &[u64; 16], r: usize) -> [u64; 16]
    requires { r < 5 }
    ensures { result ≡ with_constants r (mds_of s.now) }
{
    let lo = mds(&lower_halves(s));
    let hi = mds(&upper_halves(s));
    std::array::from_fn(|i| row(&lo, &hi, r, i))
}

pub fn round(s: &[u64; 16], r: usize) -> [u64; 16]
    requires { r < 5 }
    ensures { result ≡ round_of r s.now }
{
    linear_layer(&sbox_layer(s), r)
}
