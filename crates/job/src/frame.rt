// Numbers in bytes, and the records' frame, which a log and a job file share.
ghost use Rattle.std.specs.Prelude.{◌≡◌, ◌++◌, ◌-◌, ◌^◌, ◌≤◌, ◌<◌, length, replicate};
ghost use Rattle.machine.specs.Bytes.{number_of};
ghost use Rattle.job.specs.Frame.{kind_in, whole_by, Stands};

pub use crate::put::kind_at;

// Bytes with zeros behind them.
fn padded(bytes: &[u8]) -> [u8; 8]
    requires { length bytes.now ≤ 8 }
    ensures { result ≡ bytes.now ++ replicate (8 - length bytes.now) 0 }
{
    let mut eight = [0u8; 8];
    let n = bytes.len();
    eight[..n].copy_from_slice(bytes);
    eight
}

// The number that at most eight bytes give, the lowest first.
pub fn number_in(bytes: &[u8]) -> u64
    requires { length bytes.now ≤ 8 }
    ensures { (result ≡ number_of bytes.now) × (result < 256 ^ length bytes.now) }
{
    u64::from_le_bytes(padded(bytes))
}

// The kind of the record at the start of bytes.
pub fn kind_in(bytes: &[u8]) -> u64
    requires { 4 ≤ length bytes.now }
    ensures { result ≡ kind_in bytes.now }
{
    number_in(&bytes[2..4])
}

// The record at the start of bytes, where n is its kind's length; none if it is not whole, or n is 0.
pub fn whole_in(bytes: &[u8], n: usize) -> Option<&[u8]>
    requires { (4 ≤ length bytes.now) × (n < 65536) }
    ensures { Stands (whole_by n bytes.now) bytes.now result }
{
    if n == 0 {
        return None;
    }
    if number_in(&bytes[..2]) != n as u64 {
        return None;
    }
    if bytes.len() < n + 2 {
        return None;
    }
    Some(&bytes[..n + 2])
}
