// Cells brought into others.
ghost use Rattle.std.specs.Prelude.{◌≡◌, ◌≤◌, length};
ghost use Rattle.machine.specs.Ram.{held};
ghost use Rattle.machine_ram.specs.LentCells.{cells_of_mut};
ghost use Rattle.machine_ram.specs.RamView.{Ordered, Usable, Looked};
ghost use Rattle.replay_table.specs.Merge.{Merging, Merged, LacksOne, Lacked};
ghost use Rattle.replay_table.specs.LentView.{Kept, Shows, seen_cells};

use crate::merge::merge_slices;
use machine_ram::addresses::Addresses;
use machine_ram::ram::Ram;
use machine_ram::ram_mut::RamMut;

// RAM's cells, or a table's.
pub type Cells<'a> = RamMut<'a>;

// The same, to be looked at only. What they must be stands in clauses, as with a table: place A looks at any.
#[derive(Clone, Copy)]
pub struct SeenCells<'a> {
    pub addresses: &'a [u64],
    pub values: &'a [u64],
    pub count: usize,
}

pub fn look<'a>(cells: &'a Cells<'_>) -> SeenCells<'a>
    ensures { Shows cells.now result }
{
    SeenCells {
        addresses: &*cells.addresses,
        values: &*cells.values,
        count: cells.count,
    }
}

impl SeenCells<'_> {
    pub(crate) fn find(&self, address: u64) -> Result<usize, usize>
        requires { Ordered self.now.addresses.now self.now.count }
        ensures { Looked self.now.addresses.now self.now.count address result }
    {
        let places = Addresses {
            words: self.addresses,
            count: self.count,
        };
        places.find(address)
    }

    pub(crate) fn read(&self, address: u64) -> u64
        requires { Usable (seen_cells self.now) }
        ensures { result ≡ held (seen_cells self.now) address }
    {
        let ram = Ram {
            addresses: self.addresses,
            values: self.values,
            count: self.count,
        };
        ram.read(address)
    }
}

// 1 where an address has no cell.
fn lacks(cells: &SeenCells<'_>, address: u64) -> usize
    requires { Ordered cells.now.addresses.now cells.now.count }
    ensures { LacksOne cells.now.addresses.now cells.now.count address result }
{
    match cells.find(address) {
        Ok(_) => 0,
        Err(_) => 1,
    }
}

// How many of other cells have an address that these lack.
pub fn lacked_seen(cells: &SeenCells<'_>, from: &SeenCells<'_>) -> usize
    requires ordered { Ordered cells.now.addresses.now cells.now.count }
    requires within { from.now.count ≤ length from.now.addresses.now }
    ensures { Lacked cells.now.addresses.now cells.now.count from.now.addresses.now from.now.count result }
{
    let mut new = 0;
    for address in &from.addresses[..from.count] {
        new += lacks(cells, *address);
    }
    new
}

// The same of cells as they are lent.
pub fn lacked(cells: &Cells<'_>, from: &Cells<'_>) -> usize
    requires ordered { Ordered cells.now.addresses.now cells.now.count }
    requires within { from.now.count ≤ length from.now.addresses.now }
    ensures { Lacked cells.now.addresses.now cells.now.count from.now.addresses.now from.now.count result }
{
    lacked_seen(&look(cells), &look(from))
}

// Brings others into these, which are `total` then.
pub fn merge_seen(cells: &mut Cells<'_>, from: &SeenCells<'_>, total: usize)
    requires { Merging (cells_of_mut cells.old) (seen_cells from.now) total }
    ensures merged { Merged (cells_of_mut cells.old) (seen_cells from.now) (cells_of_mut cells.new) }
    ensures count { cells.new.count ≡ total }
    ensures kept { Kept cells.old cells.new }
{
    merge_slices(
        cells.addresses,
        cells.values,
        cells.count,
        from.addresses,
        from.values,
        from.count,
        total,
    );
    cells.count = total;
}

// The same, where the others are lent as these are.
pub fn merge(cells: &mut Cells<'_>, from: &Cells<'_>, total: usize)
    requires { Merging (cells_of_mut cells.old) (cells_of_mut from.now) total }
    ensures merged { Merged (cells_of_mut cells.old) (cells_of_mut from.now) (cells_of_mut cells.new) }
    ensures count { cells.new.count ≡ total }
    ensures kept { Kept cells.old cells.new }
{
    merge_seen(cells, &look(from), total);
}

#[cfg(test)]
mod tests {
    use super::*;
    use std::test::Fail;

    // Of 5 and 7 only 7 is new; 5 gets the word that is brought.
    #[test]
    fn brings_lent_cells(rt: HostRuntime) -> Result<(), Fail> {
        let mut addresses = [5, 0];
        let mut values = [50, 0];
        let mut keys = [5, 7];
        let mut words = [51, 70];
        let mut cells = Cells {
            addresses: &mut addresses,
            values: &mut values,
            count: 1,
        };
        let from = Cells {
            addresses: &mut keys,
            values: &mut words,
            count: 2,
        };
        assert_eq!(rt; lacked(&cells, &from), 1);
        merge(&mut cells, &from, 2);
        assert_eq!(rt; cells.count, 2);
        assert_eq!(rt; cells.addresses[0], 5);
        assert_eq!(rt; cells.addresses[1], 7);
        assert_eq!(rt; cells.values[0], 51);
        assert_eq!(rt; cells.values[1], 70);
        Ok(())
    }
}
