// RAM as it is read: addresses and values in two slices, as C lends them, of which the first `count` places are used, ascending by
// address. A search reads the addresses alone, so these are no pairs.
ghost use Rattle.std.specs.Prelude.{◌≡◌, ◌-◌, ◌≤◌, length};
ghost use Rattle.choices.specs.Choice.{cond};
ghost use Rattle.machine.specs.Ram.{cells, falls_of};
ghost use Rattle.machine_ram.specs.RamView.{Usable};

use crate::addresses::{Addresses, place_of};

#[derive(Clone, Copy)]
pub struct Ram<'a> {
    pub addresses: &'a [u64],
    pub values: &'a [u64],
    pub count: usize,
    pub ghost usable: { Usable (cells count addresses.now values.now) },
}

impl Ram<'_> {
    ghost use Rattle.machine.specs.Ram.{held};
    ghost use Rattle.machine_ram.specs.RamView.{Looked};
    ghost use Rattle.machine_ram.specs.LentCells.{cells_of};

    // What a search reads.
    fn places(&self) -> Addresses<'_>
        ensures words { result.words.now ≡ self.now.addresses.now }
        ensures count { result.count ≡ self.now.count }
    {
        Addresses {
            words: self.addresses,
            count: self.count,
        }
    }

    pub fn find(&self, address: u64) -> Result<usize, usize>
        ensures { Looked self.now.addresses.now self.now.count address result }
    {
        self.places().find(address)
    }

    pub fn find_near(&self, address: u64, guess: usize) -> Result<usize, usize>
        ensures { Looked self.now.addresses.now self.now.count address result }
    {
        self.places().find_near(address, guess)
    }

    // The word at an address that was looked for, 0 where it is absent.
    fn word(&self, address: u64, found: Result<usize, usize>) -> u64
        requires { Looked self.now.addresses.now self.now.count address found }
        ensures { result ≡ held (cells_of self.now) address }
    {
        match found {
            Ok(i) => self.values[i],
            Err(_) => 0,
        }
    }

    pub fn read(&self, address: u64) -> u64
        ensures { result ≡ held (cells_of self.now) address }
    {
        self.word(address, self.find(address))
    }

    // The word, and the place of its address.
    pub fn read_near(&self, address: u64, guess: usize) -> (u64, usize)
        ensures { result.0 ≡ held (cells_of self.now) address }
    {
        let found = self.find_near(address, guess);
        (self.word(address, found), place_of(found))
    }
}

// Whether each of the first count addresses is below the one behind it; where one is not, that is number 5 of place A.
pub fn is_ascending(addresses: &[u64], count: usize) -> bool
    requires { count ≤ length addresses.now }
    ensures { cond result 0 5 ≡ falls_of addresses.now (count - 1) }
{
    addresses[..count].is_sorted_by(|a, b| a < b)
}
