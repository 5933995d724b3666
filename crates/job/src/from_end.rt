// A text put together from its end, since a number's last digit comes first. Each function puts what stands in front of place `end` and
// gives the place where it starts.
ghost use Rattle.std.specs.Prelude.{◌≡◌, [] as Nil, ◌∷◌, ◌+◌, ◌≤◌, ◌<◌, length};
ghost use Rattle.job.specs.Listing.{decimal_of, field_of, Before};

#[inline(always)]
fn byte_before(b: &mut [u8], end: usize, v: u8) -> usize
    requires { (0 < end) × (end ≤ length b.old) }
    ensures { Before b.old b.new end (v ∷ Nil) result }
{
    b[end - 1] = v;
    end - 1
}

#[inline(always)]
pub fn text_before(b: &mut [u8], end: usize, text: &[u8]) -> usize
    requires { (length text.now ≤ end) × (end ≤ length b.old) }
    ensures { Before b.old b.new end text.now result }
{
    let start = end - text.len();
    b[start..end].copy_from_slice(text);
    start
}

// The character of a digit.
#[inline(always)]
pub fn digit(v: u64) -> u8
    requires { v < 10 }
    ensures { result ≡ 48 + v }
{
    48 + v as u8
}

#[inline(always)]
fn decimal_before(b: &mut [u8], end: usize, v: u64) -> usize
    requires { (20 ≤ end) × (end ≤ length b.old) }
    ensures { Before b.old b.new end (decimal_of v) result }
{
    let mut start = end;
    let mut rest = v;
    while 10 <= rest {
        start = byte_before(b, start, digit(rest % 10));
        rest /= 10;
    }
    byte_before(b, start, digit(rest))
}

// A number, and a byte behind it.
#[inline(always)]
pub fn field_before(b: &mut [u8], end: usize, v: u64, mark: u8) -> usize
    requires { (21 ≤ end) × (end ≤ length b.old) }
    ensures { Before b.old b.new end (field_of v mark) result }
{
    let behind = byte_before(b, end, mark);
    decimal_before(b, behind, v)
}
