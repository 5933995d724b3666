// RAM's records of a log, read for one group of addresses after the other. A table has the cells that the records write to; where it does
// not suffice, the group ends earlier.
ghost use Rattle.std.specs.Prelude.{◌≡◌, ◌+◌, ◌≤◌, ◌<◌, length};
ghost use Rattle.machine.specs.Words.{p};
ghost use Rattle.machine.specs.Ram.{cells as cells_of};
ghost use Rattle.machine.specs.Records.{length_of};
ghost use Rattle.machine_log.specs.Kinds.{kind_number};
ghost use Rattle.replay_scan.specs.RecordView.{log_at, record_at};
ghost use Rattle.replay_scan.specs.Walk.{Walked};
ghost use Rattle.replay_table.specs.Merge.{Sorted};
ghost use Rattle.replay_table.specs.Group.{inside};
ghost use Rattle.replay_table.specs.Table.{Paired};
ghost use Rattle.replay_table.specs.TableView.{Touches};
ghost use Rattle.machine_ram.specs.LentCells.{cells_of_mut};
ghost use Rattle.replay_table.specs.LentView.{KeptTable, seen_cells};
ghost use Rattle.replay_group.specs.GroupView.{LentTo, looks, looks_seen, opening_of, opening_of_seen, Gathers, Sweeps};

use field::base::P;
use machine_log::kinds::RecordKind;
use replay_scan::record::Log;
use replay_scan::records::Placed;
use replay_table::cells::{Cells, SeenCells, lacked_seen, look};
use replay_table::table::Table;

// A group's addresses: from `low` on and below `high`.
#[derive(Clone, Copy)]
struct Span {
    low: u64,
    high: u64,
}

impl Span {
    fn has(self, address: u64) -> bool
        ensures { result ≡ inside self.low self.high address }
    {
        if address < self.low {
            return false;
        }
        address < self.high
    }
}

// What came of a group: the place of the first wrong read, else the place given, and the address where the group ends.
#[derive(Clone, Copy)]
pub struct Group {
    pub end: usize,
    pub high: u64,
}

// What came of all groups: the first wrong read, how many new cells the records before it take, and how many groups there were.
#[derive(Clone, Copy)]
pub struct Sweep {
    pub end: usize,
    pub cells: usize,
    pub groups: usize,
}

// Whether the record of a kind at a place is a wrong read. Reads are looked at where the opening's cells are given.
fn is_wrong(
    log: Log<'_>,
    at: usize,
    kind: RecordKind,
    group: Span,
    opening: Option<&SeenCells<'_>>,
    table: &mut Table<'_>,
) -> bool
    requires { (at + length_of log.revision (kind_number kind) + 2 ≤ length log.bytes.now) × Sorted (opening_of_seen opening) × Paired (cells_of_mut table.old.cells) (cells_of_mut table.old.late) × (table.old.late.count < length table.old.late.addresses.now) }
    ensures touches { Touches (looks_seen opening.entry) group.low group.high (opening_of_seen opening.entry) (cells_of_mut table.old.cells) (cells_of_mut table.old.late)
        (record_at (log_at log.entry) at (kind_number kind)) result (cells_of_mut table.new.cells) (cells_of_mut table.new.late) }
    ensures count { table.new.cells.count ≡ table.old.cells.count }
    ensures kept { KeptTable table.old table.new }
{
    let RecordKind::Ram = kind else {
        return false;
    };
    let f = log.ram_fields(at);
    if !group.has(f.place) {
        return false;
    }
    if f.dir != 0 {
        table.put(f.place, f.value);
        return false;
    }
    match opening {
        Some(cells) => f.value != table.word_at_seen(cells, f.place),
        None => false,
    }
}

// The records before the place `to`, for a group from `low` on.
fn pass_log(
    log: Log<'_>,
    to: usize,
    low: u64,
    opening: Option<&SeenCells<'_>>,
    table: &mut Table<'_>,
) -> Group
    requires { Walked (log_at log) to × (low < p) × Sorted (opening_of_seen opening) × LentTo table.old }
    ensures gathers { Gathers (log_at log.entry) to (looks_seen opening.entry) low result.high (opening_of_seen opening.entry) result.end (cells_of_mut table.new.cells) (cells_of_mut table.new.late) }
    ensures kept { KeptTable table.old table.new }
{
    table.clear();
    let mut high = P;
    for record in log.records(to) {
        let Ok(Placed { at, frame, .. }) = record else {
            unreachable!()
        };
        high = table.make_room(high);
        if is_wrong(log, at, frame.kind, Span { low, high }, opening, table) {
            return Group { end: at, high };
        }
    }
    Group { end: to, high }
}

// The same, with the late cells merged into the table.
pub fn group_from_seen(
    log: Log<'_>,
    to: usize,
    low: u64,
    opening: Option<&SeenCells<'_>>,
    table: &mut Table<'_>,
) -> Group
    requires { Walked (log_at log) to × (low < p) × Sorted (opening_of_seen opening) × LentTo table.old }
    ensures gathers { Gathers (log_at log.entry) to (looks_seen opening.entry) low result.high (opening_of_seen opening.entry) result.end (cells_of_mut table.new.cells) (cells_of 0 table.new.late.addresses.now table.new.late.values.now) }
    ensures kept { KeptTable table.old table.new }
{
    let group = pass_log(log, to, low, opening, table);
    table.settle();
    group
}

// The same, where the opening is lent as the table is.
pub fn group_from(
    log: Log<'_>,
    to: usize,
    low: u64,
    opening: Option<&Cells<'_>>,
    table: &mut Table<'_>,
) -> Group
    requires { Walked (log_at log) to × (low < p) × Sorted (opening_of opening) × LentTo table.old }
    ensures gathers { Gathers (log_at log.entry) to (looks opening.entry) low result.high (opening_of opening.entry) result.end (cells_of_mut table.new.cells) (cells_of 0 table.new.late.addresses.now table.new.late.values.now) }
    ensures kept { KeptTable table.old table.new }
{
    match opening {
        Some(cells) => group_from_seen(log, to, low, Some(&look(cells)), table),
        None => group_from_seen(log, to, low, None, table),
    }
}

// All addresses, group by group: where the next one begins is known behind the one before. A `while`, since each lends the table, which an
// iterator of groups would keep. A wrong read ends what the later groups pass over.
pub fn sweep_all_seen(
    log: Log<'_>,
    to: usize,
    opening: &SeenCells<'_>,
    table: &mut Table<'_>,
) -> Sweep
    requires { Walked (log_at log) to × Sorted (seen_cells opening.now) × LentTo table.old }
    ensures sweeps { Sweeps (log_at log.entry) to (seen_cells opening.now) table.new result }
    ensures kept { KeptTable table.old table.new }
{
    let mut end = to;
    let mut cells = 0;
    let mut groups = 0;
    let mut low = 0;
    while low < P {
        let group = group_from_seen(log, end, low, Some(opening), table);
        let written = look(&table.cells);
        cells += lacked_seen(opening, &written);
        end = group.end;
        groups += 1;
        low = group.high;
    }
    Sweep { end, cells, groups }
}

// The same, where the opening is lent as the table is.
pub fn sweep_all(log: Log<'_>, to: usize, opening: &Cells<'_>, table: &mut Table<'_>) -> Sweep
    requires { Walked (log_at log) to × Sorted (cells_of_mut opening.now) × LentTo table.old }
    ensures sweeps { Sweeps (log_at log.entry) to (cells_of_mut opening.now) table.new result }
    ensures kept { KeptTable table.old table.new }
{
    sweep_all_seen(log, to, &look(opening), table)
}

#[cfg(test)]
mod tests {
    use super::*;
    use replay_scan::scan::scan_log;
    use std::test::Fail;

    // A read of 90 at address 9, and a write of 70 to address 7.
    const BYTES: [u8; 50] = [
        23, 0, 5, 0, 1, 0, 0, 0, 9, 0, 0, 0, 0, 0, 0, 0, 90, 0, 0, 0, 0, 0, 0, 0, 0, 23, 0, 5, 0,
        2, 0, 0, 0, 7, 0, 0, 0, 0, 0, 0, 0, 70, 0, 0, 0, 0, 0, 0, 0, 1,
    ];

    // The read is right, and the write takes a new cell, in one group.
    #[test]
    fn sweeps_with_a_lent_opening(rt: HostRuntime) -> Result<(), Fail> {
        let log = Log {
            bytes: &BYTES,
            revision: 1,
        };
        let scan = scan_log(log, &mut [], 3);
        let opening = Cells {
            addresses: &mut [9, 0],
            values: &mut [90, 0],
            count: 1,
        };
        let mut table = Table {
            cells: Cells {
                addresses: &mut [0; 4],
                values: &mut [0; 4],
                count: 0,
            },
            late: Cells {
                addresses: &mut [0; 2],
                values: &mut [0; 2],
                count: 0,
            },
        };
        let sweep = sweep_all(log, scan.end, &opening, &mut table);
        assert_eq!(rt; sweep.end, 50);
        assert_eq!(rt; sweep.cells, 1);
        assert_eq!(rt; sweep.groups, 1);
        Ok(())
    }

    // With an opening of another word the read ends the group; without one no read is looked at.
    #[test]
    fn gathers_with_a_lent_opening(rt: HostRuntime) -> Result<(), Fail> {
        let log = Log {
            bytes: &BYTES,
            revision: 1,
        };
        let scan = scan_log(log, &mut [], 3);
        let opening = Cells {
            addresses: &mut [9, 0],
            values: &mut [91, 0],
            count: 1,
        };
        let mut table = Table {
            cells: Cells {
                addresses: &mut [0; 4],
                values: &mut [0; 4],
                count: 0,
            },
            late: Cells {
                addresses: &mut [0; 2],
                values: &mut [0; 2],
                count: 0,
            },
        };
        let wrong = group_from(log, scan.end, 0, Some(&opening), &mut table);
        assert_eq!(rt; wrong.end, 0);
        let all = group_from(log, scan.end, 0, None, &mut table);
        assert_eq!(rt; all.end, 50);
        assert_eq!(rt; all.high, P);
        assert_eq!(rt; table.cells.count, 1);
        Ok(())
    }
}
