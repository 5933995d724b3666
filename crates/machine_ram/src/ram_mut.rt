// RAM as it is written. An insertion breaks the order on its way, so that no ghost field holds it.
ghost use Rattle.std.specs.Prelude.{◌≡◌, ◌<◌, ◌≤◌, length};
ghost use Rattle.machine.specs.Ram.{held, moved_up, inserted};
ghost use Rattle.machine_ram.specs.RamView.{Ordered, Usable, Looked, Room, Stored};
ghost use Rattle.machine_ram.specs.LentCells.{cells_of_mut, Keeps};

use crate::addresses::{Addresses, place_of};
use crate::ram::Ram;

#[derive(Drop)]
pub struct RamMut<'a> {
    pub addresses: &'a mut [u64],
    pub values: &'a mut [u64],
    pub count: usize,
}

// The first n words move up by one, the last first. Written so, from the start of a slice, the compiler makes a memmove of it: in front of 4,000 cells it
// takes 1.35 µs. std's `copy_within` is a loop of its own, and takes 1.92.
fn move_up(s: &mut [u64], n: usize)
    requires { n < length s.old }
    ensures { s.new ≡ moved_up s.old 0 n }
{
    let mut k = n;
    while 0 < k {
        s[k] = s[k - 1];
        k -= 1;
    }
}

// Puts a word in at place i of count used ones.
fn insert(s: &mut [u64], count: usize, i: usize, word: u64)
    requires { (i ≤ count) × (count < length s.old) }
    ensures { s.new ≡ inserted s.old count i word }
{
    move_up(&mut s[i..], count - i);
    s[i] = word;
}

impl RamMut<'_> {
    // What a search reads.
    fn places(&self) -> Addresses<'_>
        requires { Ordered self.now.addresses.now self.now.count }
        ensures words { result.words.now ≡ self.now.addresses.now }
        ensures count { result.count ≡ self.now.count }
    {
        Addresses {
            words: &*self.addresses,
            count: self.count,
        }
    }

    pub fn find(&self, address: u64) -> Result<usize, usize>
        requires { Ordered self.now.addresses.now self.now.count }
        ensures { Looked self.now.addresses.now self.now.count address result }
    {
        self.places().find(address)
    }

    pub fn read(&self, address: u64) -> u64
        requires { Usable (cells_of_mut self.now) }
        ensures { result ≡ held (cells_of_mut self.now) address }
    {
        let ram = Ram {
            addresses: &*self.addresses,
            values: &*self.values,
            count: self.count,
        };
        ram.read(address)
    }

    // Writes a word to an address that was looked for, in a new cell where it is absent.
    fn store(&mut self, address: u64, value: u64, found: Result<usize, usize>)
        requires { Room (cells_of_mut self.old) address value × Looked self.old.addresses.now self.old.count address found }
        ensures stored { Stored (cells_of_mut self.old) address value (cells_of_mut self.new) }
        ensures lent { Keeps self.old self.new }
    {
        match found {
            Ok(i) => self.values[i] = value,
            Err(i) => {
                insert(self.addresses, self.count, i, address);
                insert(self.values, self.count, i, value);
                self.count += 1;
            }
        }
    }

    pub fn write(&mut self, address: u64, value: u64)
        requires { Room (cells_of_mut self.old) address value }
        ensures stored { Stored (cells_of_mut self.old) address value (cells_of_mut self.new) }
        ensures lent { Keeps self.old self.new }
    {
        let found = self.find(address);
        self.store(address, value, found);
    }

    // Gives the place of the address.
    pub fn write_near(&mut self, address: u64, value: u64, guess: usize) -> usize
        requires { Room (cells_of_mut self.old) address value }
        ensures stored { Stored (cells_of_mut self.old) address value (cells_of_mut self.new) }
        ensures lent { Keeps self.old self.new }
    {
        let found = self.places().find_near(address, guess);
        self.store(address, value, found);
        place_of(found)
    }
}
