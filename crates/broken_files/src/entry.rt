// An entry of the list: what it says of a file, and its name.
ghost use Rattle.std.specs.Prelude.{◌≤◌};

use reading::read_full;
use std::io;
use std::io::Read;

// What reading the file must give. The sums are of the slices, in the order of `Words`.
#[derive(Clone, Copy)]
pub struct Entry {
    pub length: u64,
    pub number: u64,
    pub digest: [u64; 5],
    // How many there are of slots, public words, secret words, words of digests and cells.
    pub counts: [u64; 5],
    pub budget: u64,
    pub sums: [u64; 7],
    // It ends in spaces, and need not be text.
    pub name: [u8; 48],
}

// The next number of the list; 0 where the list has ended.
pub fn next(list: &mut impl Read) -> io::Result<u64> {
    let mut bytes = [0u8; 8];
    read_full(list, &mut bytes)?;
    Ok(u64::from_le_bytes(bytes))
}

fn numbers<const N: usize>(list: &mut impl Read) -> io::Result<[u64; N]> {
    let mut numbers = [0u64; N];
    for number in numbers.iter_mut() {
        *number = next(list)?;
    }
    Ok(numbers)
}

fn name(list: &mut impl Read) -> io::Result<[u8; 48]> {
    let mut bytes = [0u8; 48];
    read_full(list, &mut bytes)?;
    Ok(bytes)
}

impl Entry {
    pub fn read(list: &mut impl Read) -> io::Result<Entry> {
        Ok(Entry {
            length: next(list)?,
            number: next(list)?,
            digest: numbers::<5>(list)?,
            counts: numbers::<5>(list)?,
            budget: next(list)?,
            sums: numbers::<7>(list)?,
            name: name(list)?,
        })
    }
}

// How much of a file there is room for.
pub fn least(length: u64, room: usize) -> usize
    ensures { result ≤ room }
{
    usize::try_from(length).unwrap_or(room).min(room)
}
