// Split-and-lookup: the S-box of words 0 to 3, by a table on bytes.
ghost use Rattle.std.specs.Prelude.{◌≡◌, ◌*◌};
ghost use Rattle.tip5.specs.SplitAndLookup.{lookup_of, lookups, looked_up, split_and_lookup};

use field::base;

static LOOKUP: [u8; 256] = [
    0, 7, 26, 63, 124, 215, 85, 254, 214, 228, 45, 185, 140, 173, 33, 240, 29, 177, 176, 32, 8,
    110, 87, 202, 204, 99, 150, 106, 230, 14, 235, 128, 213, 239, 212, 138, 23, 130, 208, 6, 44,
    71, 93, 116, 146, 189, 251, 81, 199, 97, 38, 28, 73, 179, 95, 84, 152, 48, 35, 119, 49, 88,
    242, 3, 148, 169, 72, 120, 62, 161, 166, 83, 175, 191, 137, 19, 100, 129, 112, 55, 221, 102,
    218, 61, 151, 237, 68, 164, 17, 147, 46, 234, 203, 216, 22, 141, 65, 57, 123, 12, 244, 54, 219,
    231, 96, 77, 180, 154, 5, 253, 133, 165, 98, 195, 205, 134, 245, 30, 9, 188, 59, 142, 186, 197,
    181, 144, 92, 31, 224, 163, 111, 74, 58, 69, 113, 196, 67, 246, 225, 10, 121, 50, 60, 157, 90,
    122, 2, 250, 101, 75, 178, 159, 24, 36, 201, 11, 243, 132, 198, 190, 114, 233, 39, 52, 21, 209,
    108, 238, 91, 187, 18, 104, 194, 37, 153, 34, 200, 143, 126, 155, 236, 118, 64, 80, 172, 89,
    94, 193, 135, 183, 86, 107, 252, 13, 167, 206, 136, 220, 207, 103, 171, 160, 76, 182, 227, 217,
    158, 56, 174, 4, 66, 109, 139, 162, 184, 211, 249, 47, 125, 232, 117, 43, 16, 42, 127, 20, 241,
    25, 149, 105, 156, 51, 53, 168, 145, 247, 223, 79, 78, 226, 15, 222, 82, 115, 70, 210, 27, 41,
    1, 170, 40, 131, 192, 229, 248, 255,
];

pub fn lookup_table() -> &'static [u8; 256]
    ensures { result.now ≡ lookups }
{
    &LOOKUP
}

fn lookup(b: u8) -> u8
    ensures { result ≡ lookup_of b }
{
    lookup_table()[usize::from(b)]
}

// Each of y's eight bytes looked up.
fn looked_up(y: u64) -> u64
    ensures { result ≡ looked_up y }
{
    let bytes = y.to_le_bytes();
    u64::from_le_bytes(std::array::from_fn(|i| lookup(bytes[i])))
}

// The word times 2^64, its bytes looked up, times the inverse of 2^64, which is -2^32.
pub fn split_and_lookup(x: u64) -> u64
    ensures { result ≡ split_and_lookup x }
{
    let z = looked_up(base::reduce(x, 0));
    base::neg(base::reduce(base::high(z), base::low(z) * 0x1_0000_0000))
}
