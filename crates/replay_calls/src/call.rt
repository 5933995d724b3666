// Replay: a log of a revision, read up to a clock, rebuilds depth, the words below the top sixteen and RAM, or is refused. All is decided
// before RAM is written.
ghost use Rattle.std.specs.Prelude.{◌≡◌, ◌<◌, IfOk, OnErr};
ghost use Rattle.replay.specs.Replay.{replay_of};
ghost use Rattle.replay_scan.specs.FaultView.{fault_or_0};
ghost use Rattle.replay_scan.specs.RecordView.{log_at};
ghost use Rattle.replay_scan.specs.Walk.{Walked};
ghost use Rattle.replay_table.specs.Merge.{Sorted};
ghost use Rattle.machine_ram.specs.LentCells.{cells_of_mut};
ghost use Rattle.replay_table.specs.LentView.{Kept, KeptTable, seen_cells};
ghost use Rattle.replay_group.specs.GroupView.{LentTo};
ghost use Rattle.replay_group.specs.Decided.{Decides, LeftIn, Scans, Rebuilds};
ghost use Rattle.replay_calls.specs.RefusalView.{number_in};
ghost use Rattle.replay_calls.specs.ReplayView.{replayed_by};
ghost use Rattle.replay_calls.specs.Quiet.{Quiet};

use crate::place_a::check_replay_seen;
use crate::refusal::Refusal;
use replay_group::group::sweep_all_seen;
use replay_group::write::write_back;
use replay_scan::fault::Fault;
use replay_scan::record::Log;
use replay_scan::scan::{Scan, scan_log};
use replay_table::cells::{Cells, SeenCells, look};
use replay_table::table::Table;

// Behind a scan that ended at place `to`, maybe at a fault: a wrong read before it, or no room for the cells that the records before that take. Else
// whether the table has the cells of all records.
fn decide(
    log: Log<'_>,
    to: usize,
    fault: Option<Fault>,
    cells: &SeenCells<'_>,
    table: &mut Table<'_>,
) -> Result<bool, Fault>
    requires { Walked (log_at log) to × Sorted (seen_cells cells.now) × LentTo table.old }
    ensures decides { Decides (log_at log.entry) to (fault_or_0 fault) (seen_cells cells.now) (number_in result) }
    ensures left { IfOk result (λ whole. LeftIn (log_at log.entry) to whole table.new) }
    ensures kept { KeptTable table.old table.new }
{
    let room = cells.addresses.len() - cells.count;
    let all = sweep_all_seen(log, to, cells, table);
    if all.end == to {
        if room < all.cells {
            return Err(Fault::NoRoom);
        }
        return match fault {
            Some(fault) => Err(fault),
            None => Ok(all.groups == 1),
        };
    }
    let right = sweep_all_seen(log, all.end, cells, table);
    if room < right.cells {
        return Err(Fault::NoRoom);
    }
    Err(Fault::WrongRead)
}

// Decides, and brings the writes into RAM where the log is not refused.
fn rebuild(
    log: Log<'_>,
    to: usize,
    fault: Option<Fault>,
    cells: &mut Cells<'_>,
    table: &mut Table<'_>,
) -> Result<(), Fault>
    requires { Scans (log_at log) to (cells_of_mut cells.old) × LentTo table.old }
    ensures rebuilds { Rebuilds (log_at log.entry) to (fault_or_0 fault) (cells_of_mut cells.old) (number_in result) (cells_of_mut cells.new) }
    ensures kept { Kept cells.old cells.new }
{
    let opening = look(cells);
    let whole = decide(log, to, fault, &opening, table)?;
    write_back(log, to, cells, table, whole);
    Ok(())
}

// With a table of N cells and M late ones.
fn by_table_of<const N: usize, const M: usize>(
    log: Log<'_>,
    to: usize,
    fault: Option<Fault>,
    cells: &mut Cells<'_>,
) -> Result<(), Fault>
    requires { Scans (log_at log) to (cells_of_mut cells.old) × (1 < N) × (N < 65536) × (0 < M) × (M < 65536) }
    ensures rebuilds { Rebuilds (log_at log.entry) to (fault_or_0 fault) (cells_of_mut cells.old) (number_in result) (cells_of_mut cells.new) }
    ensures kept { Kept cells.old cells.new }
{
    let mut addresses = [0u64; N];
    let mut values = [0u64; N];
    let mut late_addresses = [0u64; M];
    let mut late_values = [0u64; M];
    let own = Cells {
        addresses: &mut addresses,
        values: &mut values,
        count: 0,
    };
    let late = Cells {
        addresses: &mut late_addresses,
        values: &mut late_values,
        count: 0,
    };
    let mut table = Table { cells: own, late };
    rebuild(log, to, fault, cells, &mut table)
}

// A log without a record of RAM is not read again. One with fewer bytes has fewer records of RAM than the small table has cells, and that is
// soon made; the large one takes some 200 KiB.
fn by_table(log: Log<'_>, scan: Scan, cells: &mut Cells<'_>) -> Result<(), Fault>
    requires { Scans (log_at log) scan.end (cells_of_mut cells.old) × Quiet (log_at log) scan.end scan.ram }
    ensures rebuilds { Rebuilds (log_at log.entry) scan.end (fault_or_0 scan.fault) (cells_of_mut cells.old) (number_in result) (cells_of_mut cells.new) }
    ensures kept { Kept cells.old cells.new }
{
    if !scan.ram {
        return match scan.fault {
            Some(fault) => Err(fault),
            None => Ok(()),
        };
    }
    if scan.end < 12800 {
        return by_table_of::<512, 32>(log, scan.end, scan.fault, cells);
    }
    by_table_of::<12288, 512>(log, scan.end, scan.fault, cells)
}

// Gives the depth. Refused, the words are 0 and the cells as they were.
pub fn replay(
    log: Log<'_>,
    cells: &mut Cells<'_>,
    words: &mut [u64],
    clock: u64,
) -> Result<usize, Refusal>
    ensures replayed { replayed_by result words.new (cells_of_mut cells.new) ≡ replay_of log.entry.revision log.entry.bytes.now (cells_of_mut cells.old) words.old clock }
    ensures unchanged { OnErr result (cells_of_mut cells.new ≡ cells_of_mut cells.old) }
    ensures kept { Kept cells.old cells.new }
{
    let opening = look(cells);
    check_replay_seen(log, &opening, words)?;
    let scan = scan_log(log, words, clock);
    if let Err(fault) = by_table(log, scan, cells) {
        words.fill(0);
        return Err(Refusal::Log(fault));
    }
    Ok(scan.depth)
}
