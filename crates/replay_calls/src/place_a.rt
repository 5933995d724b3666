// Place A of replay.
ghost use Rattle.std.specs.Prelude.{◌≡◌};
ghost use Rattle.replay.specs.Replay.{replay_a};
ghost use Rattle.machine_ram.specs.LentCells.{cells_of_mut};
ghost use Rattle.replay_table.specs.LentView.{seen_cells};
ghost use Rattle.machine.specs.Refusal.{found_a};

use machine::refusal::PlaceA;
use machine_place_a::checks;
use replay_scan::record::Log;
use replay_table::cells::{Cells, SeenCells, look};

// The log is looked at by its length alone.
#[tactic(auto, using(crate::proofs::PlaceALaws::all_unused), unfolding(choices::specs::Choice::first_of, machine::specs::Ram::cells1, machine::specs::Ram::cells5, replay::specs::Replay::replay_a))]
pub fn check_replay_seen(log: Log<'_>, cells: &SeenCells<'_>, words: &[u64]) -> Result<(), PlaceA>
    ensures { found_a result ≡ replay_a log.entry.revision log.entry.bytes.now (seen_cells cells.now) words.now }
{
    checks::check_length(log.bytes.len())?;
    checks::check_cell_lengths(cells.addresses, cells.values)?;
    checks::check_length(words.len())?;
    checks::check_cell_words(cells.addresses, cells.values, cells.count)?;
    checks::check_revision(log.revision)?;
    checks::check_cells(cells.addresses, cells.count)?;
    checks::check_unused(words, 0)
}

// The same of cells as they are lent.
pub fn check_replay(log: Log<'_>, cells: &Cells<'_>, words: &[u64]) -> Result<(), PlaceA>
    ensures { found_a result ≡ replay_a log.entry.revision log.entry.bytes.now (cells_of_mut cells.now) words.now }
{
    check_replay_seen(log, &look(cells), words)
}

#[cfg(test)]
mod tests {
    use super::*;
    use std::test::Fail;

    // Numbers 5, 4, 2 and 1 of documents 01 and 02, each in front of those above it.
    #[test]
    fn checks_lent_cells(rt: HostRuntime) -> Result<(), Fail> {
        let mut log = Log {
            bytes: &[],
            revision: 1,
        };
        let cells = Cells {
            addresses: &mut [9, 0],
            values: &mut [90, 0],
            count: 1,
        };
        assert_eq!(rt; check_replay(log, &cells, &[0, 0]), Ok(()));
        assert_eq!(rt; check_replay(log, &cells, &[0, 1]), Err(PlaceA::BadState));
        log.revision = 3;
        assert_eq!(rt;
            check_replay(log, &cells, &[0, 1]),
            Err(PlaceA::IllegalArgument)
        );
        cells.values[0] = u64::MAX;
        assert_eq!(rt; check_replay(log, &cells, &[0, 1]), Err(PlaceA::NotAWord));
        let short = Cells {
            addresses: cells.addresses,
            values: &mut [u64::MAX],
            count: 1,
        };
        assert_eq!(rt; check_replay(log, &short, &[0, 1]), Err(PlaceA::BadShape));
        Ok(())
    }
}
