// Reading into a buffer until it is full.
#![tactic(auto)]

ghost use Rattle.std.specs.Prelude.{◌<◌, length, take, IfOk};
ghost use Rattle.std.specs.Io.{ReadsAtMost};
ghost use Rattle.std.specs.Io.KnownBytes.{Consumes, IsAtEnd};

use std::io;
use std::io::Read;

// Reads until buf is full or the input ends, and returns how many bytes it put at the start of buf. On an empty buf it makes no call.
// A `while`, since a read says how far it came: no `for` and no chain counts so.
pub fn read_full<R: Read>(from: &mut R, buf: &mut [u8]) -> io::Result<usize>
    ensures bound { ReadsAtMost result buf.new }
    ensures bytes { IfOk result (λ n. Consumes (R.remaining from.old) (R.remaining from.new) (take n buf.new)) }
    ensures end { IfOk result (λ n. n < length buf.new → IsAtEnd (R.remaining from.new)) }
{
    let mut done = 0;
    while done < buf.len() {
        let n = from.read(&mut buf[done..])?;
        if n == 0 {
            break;
        }
        done += n;
    }
    Ok(done)
}

#[cfg(test)]
mod tests {
    use super::*;
    use std::test::Fail;

    // The bytes come in two parts: the first read gives two of them, the next one what is left of the buffer.
    #[test]
    fn fills_the_buffer(rt: HostRuntime) -> Result<(), Fail> {
        let bytes = [1u8, 2, 3, 4, 5];
        let mut from = (&bytes[..2]).chain(&bytes[2..]);
        let mut buf = [0u8; 4];
        assert_eq!(rt; read_full(&mut from, &mut buf)?, 4);
        assert_eq!(rt; buf[0], 1);
        assert_eq!(rt; buf[1], 2);
        assert_eq!(rt; buf[2], 3);
        assert_eq!(rt; buf[3], 4);
        Ok(())
    }

    #[test]
    fn stops_at_the_end(rt: HostRuntime) -> Result<(), Fail> {
        let bytes = [7u8, 8];
        let mut from: &[u8] = &bytes;
        let mut buf = [0u8; 4];
        assert_eq!(rt; read_full(&mut from, &mut buf)?, 2);
        assert_eq!(rt; buf[1], 8);
        assert_eq!(rt; read_full(&mut from, &mut buf)?, 0);
        Ok(())
    }
}
