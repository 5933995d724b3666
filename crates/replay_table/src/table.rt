// A group's table: the cells that the log's records wrote to.
ghost use Rattle.std.specs.Prelude.{◌≡◌, false as False, ◌+◌, ◌<◌, length};
ghost use Rattle.choices.specs.Choice.{cond};
ghost use Rattle.machine.specs.Ram.{cells as cells_of, has, held};
ghost use Rattle.replay_table.specs.Merge.{Sorted, Merged};
ghost use Rattle.replay_table.specs.Table.{seen, Paired, Puts, Makes};
ghost use Rattle.replay_table.specs.TableView.{Waits};
ghost use Rattle.replay_table.specs.LentView.{Kept, KeptTable, Alike, Shows, seen_cells};
ghost use Rattle.machine_ram.specs.LentCells.{cells_of_mut};

use crate::cells::{Cells, SeenCells, look, merge_seen};
use machine_ram::addresses::Addresses;

// Most cells stand in the table's own; the latest in a few beside, where a new cell moves few, and which are merged into the others. What its
// slices must be stands in clauses and not in ghost fields, which would ask the room of a group at each call, and have to hold within a merge.
#[derive(Drop)]
pub struct Table<'a> {
    pub cells: Cells<'a>,
    pub late: Cells<'a>,
}

// The same, to be looked at only.
#[derive(Clone, Copy)]
pub struct SeenTable<'a> {
    pub cells: SeenCells<'a>,
    pub late: SeenCells<'a>,
}

// ---- a word

impl SeenTable<'_> {
    // A late cell's, else the opening's.
    fn late_word(&self, opening: &SeenCells<'_>, address: u64) -> u64
        requires { Sorted (seen_cells self.now.late) × Sorted (seen_cells opening.now) }
        ensures { result ≡ cond (has (seen_cells self.now.late) address) (held (seen_cells self.now.late) address) (held (seen_cells opening.now) address) }
    {
        match self.late.find(address) {
            Ok(i) => self.late.values[i],
            Err(_) => opening.read(address),
        }
    }

    // The table's, else a late cell's, else the opening's.
    pub fn word_at(&self, opening: &SeenCells<'_>, address: u64) -> u64
        requires { Paired (seen_cells self.now.cells) (seen_cells self.now.late) × Sorted (seen_cells opening.now) }
        ensures { result ≡ seen (seen_cells self.now.cells) (seen_cells self.now.late) address (held (seen_cells opening.now) address) }
    {
        match self.cells.find(address) {
            Ok(i) => self.cells.values[i],
            Err(_) => self.late_word(opening, address),
        }
    }
}

// ---- a write

// Of a table's own cells only the words may change. Table's `put` doesn't call it, since it would lend it one slice of its own cells to change and
// one to look at.
pub fn put(
    addresses: &[u64],
    values: &mut [u64],
    count: usize,
    late: &mut Cells<'_>,
    address: u64,
    value: u64,
)
    requires { Paired (cells_of count addresses.now values.old) (cells_of_mut late.old) × (late.old.count < length late.old.addresses.now) }
    ensures puts { Puts (cells_of count addresses.now values.old) (cells_of_mut late.old) address value (cells_of count addresses.now values.new) (cells_of_mut late.new) }
    ensures kept { Kept late.old late.new }
{
    let places = Addresses {
        words: addresses,
        count,
    };
    match places.find(address) {
        Ok(place) => {
            values[place] = value;
        }
        Err(_) => {
            late.write(address, value);
        }
    }
}

// ---- room

// What came of making room: how many cells are late then, and where the group ends.
#[derive(Clone, Copy)]
pub struct Made {
    pub late: usize,
    pub high: u64,
}

// Whether there is room for a late cell. The late ones are merged when they are many beside the table's, so that most
// addresses are found at the first look; any bound is right.
fn waits(cells: &Cells<'_>, late: &SeenCells<'_>) -> bool
    requires { Paired (cells_of_mut cells.now) (seen_cells late.now) }
    ensures { Waits cells.now.count late.now.count (length cells.now.addresses.now) (length late.now.addresses.now) result }
{
    let used = cells.count;
    if late.addresses.len() <= late.count {
        return false;
    }
    if cells.addresses.len() - used <= late.count {
        return false;
    }
    late.count <= used / 32 + 16
}

// The late cells merged into a table's own.
pub fn settle(cells: &mut Cells<'_>, late: &SeenCells<'_>)
    requires { Paired (cells_of_mut cells.old) (seen_cells late.now) }
    ensures merged { Merged (cells_of_mut cells.old) (seen_cells late.now) (cells_of_mut cells.new) }
    ensures count { cells.new.count ≡ cells.old.count + late.now.count }
    ensures kept { Kept cells.old cells.new }
{
    let most = cells.addresses.len();
    let total = cells.count + late.count;
    prove!(total <= most);
    merge_seen(cells, late, total);
}

// Room by merging; where the table is full then, only its lower half is kept, and the group ends before the rest.
fn make_more(cells: &mut Cells<'_>, late: &SeenCells<'_>, hi: u64) -> Made
    requires { Paired (cells_of_mut cells.old) (seen_cells late.now) × (0 < length cells.old.addresses.now) × Waits cells.old.count late.now.count (length cells.old.addresses.now) (length late.now.addresses.now) False }
    ensures makes { Makes (cells_of_mut cells.old) (seen_cells late.now) hi (cells_of_mut cells.new) result.late result.high }
    ensures kept { Kept cells.old cells.new }
{
    settle(cells, late);
    if cells.count < cells.addresses.len() {
        return Made { late: 0, high: hi };
    }
    let half = cells.addresses.len() / 2;
    cells.count = half;
    Made {
        late: 0,
        high: cells.addresses[half],
    }
}

// Room for one late cell more, and for all of them in the table.
pub fn make_room(cells: &mut Cells<'_>, late: &SeenCells<'_>, hi: u64) -> Made
    requires { Paired (cells_of_mut cells.old) (seen_cells late.now) × (0 < length cells.old.addresses.now) }
    ensures makes { Makes (cells_of_mut cells.old) (seen_cells late.now) hi (cells_of_mut cells.new) result.late result.high }
    ensures kept { Kept cells.old cells.new }
{
    if waits(cells, late) {
        return Made {
            late: late.count,
            high: hi,
        };
    }
    make_more(cells, late, hi)
}

// ---- all of a table

impl Table<'_> {
    // No cells.
    pub fn clear(&mut self)
        ensures count { self.new.cells.count ≡ 0 }
        ensures late { self.new.late.count ≡ 0 }
        ensures alike { Alike self.old.cells self.new.cells × Alike self.old.late self.new.late }
        ensures kept { KeptTable self.old self.new }
    {
        self.cells.count = 0;
        self.late.count = 0;
    }

    pub fn look(&self) -> SeenTable<'_>
        ensures cells { Shows self.now.cells result.cells }
        ensures late { Shows self.now.late result.late }
    {
        SeenTable {
            cells: look(&self.cells),
            late: look(&self.late),
        }
    }

    pub fn word_at_seen(&self, opening: &SeenCells<'_>, address: u64) -> u64
        requires { Paired (cells_of_mut self.now.cells) (cells_of_mut self.now.late) × Sorted (seen_cells opening.now) }
        ensures { result ≡ seen (cells_of_mut self.now.cells) (cells_of_mut self.now.late) address (held (seen_cells opening.now) address) }
    {
        self.look().word_at(opening, address)
    }

    // The same, where the opening is lent as the table is.
    pub fn word_at(&self, opening: &Cells<'_>, address: u64) -> u64
        requires { Paired (cells_of_mut self.now.cells) (cells_of_mut self.now.late) × Sorted (cells_of_mut opening.now) }
        ensures { result ≡ seen (cells_of_mut self.now.cells) (cells_of_mut self.now.late) address (held (cells_of_mut opening.now) address) }
    {
        self.word_at_seen(&look(opening), address)
    }

    pub fn put(&mut self, address: u64, value: u64)
        requires { Paired (cells_of_mut self.old.cells) (cells_of_mut self.old.late) × (self.old.late.count < length self.old.late.addresses.now) }
        ensures count { self.new.cells.count ≡ self.old.cells.count }
        ensures puts { Puts (cells_of_mut self.old.cells) (cells_of_mut self.old.late) address value (cells_of_mut self.new.cells) (cells_of_mut self.new.late) }
        ensures kept { KeptTable self.old self.new }
    {
        match self.cells.find(address) {
            Ok(i) => {
                self.cells.values[i] = value;
            }
            Err(_) => {
                self.late.write(address, value);
            }
        }
    }

    // Leaves no late cell.
    pub fn settle(&mut self)
        requires { Paired (cells_of_mut self.old.cells) (cells_of_mut self.old.late) }
        ensures merged { Merged (cells_of_mut self.old.cells) (cells_of_mut self.old.late) (cells_of_mut self.new.cells) }
        ensures count { self.new.cells.count ≡ self.old.cells.count + self.old.late.count }
        ensures late { self.new.late.count ≡ 0 }
        ensures alike { Alike self.old.late self.new.late }
        ensures kept { KeptTable self.old self.new }
    {
        let late = look(&self.late);
        settle(&mut self.cells, &late);
        self.late.count = 0;
    }

    // Gives where the group ends.
    pub fn make_room(&mut self, hi: u64) -> u64
        requires { Paired (cells_of_mut self.old.cells) (cells_of_mut self.old.late) × (0 < length self.old.cells.addresses.now) }
        ensures makes { Makes (cells_of_mut self.old.cells) (cells_of_mut self.old.late) hi (cells_of_mut self.new.cells) self.new.late.count result }
        ensures alike { Alike self.old.late self.new.late }
        ensures kept { KeptTable self.old self.new }
    {
        let late = look(&self.late);
        let made = make_room(&mut self.cells, &late, hi);
        self.late.count = made.late;
        made.high
    }
}

#[cfg(test)]
mod tests {
    use super::*;
    use std::test::Fail;

    // 5 stands in the table, 7 among the late cells, and both in the opening too, 9 in the opening alone, and 11 nowhere.
    #[test]
    fn word_of_a_lent_opening(rt: HostRuntime) -> Result<(), Fail> {
        let mut addresses = [5, 0];
        let mut values = [50, 0];
        let mut late_addresses = [7];
        let mut late_values = [70];
        let mut opening_addresses = [5, 7, 9];
        let mut opening_values = [1, 2, 90];
        let own = Cells {
            addresses: &mut addresses,
            values: &mut values,
            count: 1,
        };
        let late = Cells {
            addresses: &mut late_addresses,
            values: &mut late_values,
            count: 1,
        };
        let opening = Cells {
            addresses: &mut opening_addresses,
            values: &mut opening_values,
            count: 3,
        };
        let table = Table { cells: own, late };
        for (address, want) in [(5, 50), (7, 70), (9, 90), (11, 0)] {
            assert_eq!(rt; table.word_at(&opening, address), want, "at {address}");
        }
        Ok(())
    }
}
