// A log's writes brought into RAM: the tables of the groups of addresses, one behind the other.
ghost use Rattle.std.specs.Prelude.{◌/◌, length};
ghost use Rattle.replay_scan.specs.RecordView.{log_at};
ghost use Rattle.machine_ram.specs.LentCells.{cells_of_mut};
ghost use Rattle.replay_table.specs.LentView.{Kept, KeptTable, seen_cells};
ghost use Rattle.replay_group.specs.GroupView.{LentTo};
ghost use Rattle.replay_group.specs.WriteView.{Fits, Brings, Fitting, Written, Few};
ghost use Rattle.replay_group.specs.Decided.{LeftIn};

use crate::group::group_from_seen;
use field::base::P;
use replay_scan::record::Log;
use replay_table::cells::{Cells, SeenCells, lacked_seen, look, merge_seen};
use replay_table::table::Table;

// A table's cells.
fn bring(cells: &mut Cells<'_>, from: &SeenCells<'_>)
    requires { Fits (cells_of_mut cells.old) (seen_cells from.now) }
    ensures brings { Brings (cells_of_mut cells.old) (seen_cells from.now) (cells_of_mut cells.new) }
    ensures kept { Kept cells.old cells.new }
{
    let own = look(cells);
    let total = own.count + lacked_seen(&own, from);
    merge_seen(cells, from, total);
}

// The records before `to`, group by group; gives how many groups there were. A `while`, as in sweep_all_seen.
fn write_groups(log: Log<'_>, to: usize, cells: &mut Cells<'_>, table: &mut Table<'_>) -> usize
    requires { Fitting (log_at log) to (cells_of_mut cells.old) × LentTo table.old }
    ensures written { Written (log_at log.entry) to (cells_of_mut cells.old) (cells_of_mut cells.new) }
    ensures few { Few (log_at log.entry) to (length table.old.cells.addresses.now / 2) result }
    ensures kept { Kept cells.old cells.new }
    ensures kept_table { KeptTable table.old table.new }
{
    let mut groups = 0;
    let mut low = 0;
    while low < P {
        groups += 1;
        let group = group_from_seen(log, to, low, None, table);
        let written = look(&table.cells);
        bring(cells, &written);
        low = group.high;
    }
    groups
}

// The same. Where one table had room for all, it is there already.
pub fn write_back(
    log: Log<'_>,
    to: usize,
    cells: &mut Cells<'_>,
    table: &mut Table<'_>,
    whole: bool,
)
    requires { Fitting (log_at log) to (cells_of_mut cells.old) × LentTo table.old × LeftIn (log_at log) to whole table.old }
    ensures written { Written (log_at log.entry) to (cells_of_mut cells.old) (cells_of_mut cells.new) }
    ensures kept { Kept cells.old cells.new }
    ensures kept_table { KeptTable table.old table.new }
{
    if whole {
        let written = look(&table.cells);
        bring(cells, &written);
        return;
    }
    let _groups = write_groups(log, to, cells, table);
}
