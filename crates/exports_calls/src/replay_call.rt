// replay over numbers and slices.
ghost use Rattle.std.specs.Prelude.{◌≡◌, [] as Nil, ◌∷◌, length};
ghost use Rattle.machine.specs.Ram.{cells as cells_of};
ghost use Rattle.exports_calls.specs.ReplayCall.{replied, replay_call};

use replay_calls::call::replay;
use replay_scan::record::Log;
use replay_table::cells::Cells;

fn write_rebuilt(rebuilt: &mut [u64], number: u64, depth: usize, cells: usize)
    requires { length rebuilt.old ≡ 3 }
    ensures { rebuilt.new ≡ (number ∷ depth ∷ cells ∷ Nil) }
{
    rebuilt.copy_from_slice(&[number, depth as u64, cells as u64]);
}

// Refused, everything lent but the answer is as it was.
pub fn replay_call(
    rebuilt: &mut [u64],
    log: &[u8],
    revision: u64,
    clock: u64,
    cells: u64,
    addresses: &mut [u64],
    values: &mut [u64],
    words: &mut [u64],
) -> u64
    ensures { replied result rebuilt.new words.new addresses.new values.new
        ≡ replay_call rebuilt.old log.now revision clock (cells_of cells addresses.old values.old) words.old }
{
    if rebuilt.len() != 3 {
        return 1;
    }
    let log = Log {
        bytes: log,
        revision,
    };
    let mut ram = Cells {
        addresses,
        values,
        count: cells as usize,
    };
    match replay(log, &mut ram, words, clock) {
        Ok(depth) => {
            write_rebuilt(rebuilt, 0, depth, ram.count);
            0
        }
        Err(refusal) => {
            let number = refusal.number();
            write_rebuilt(rebuilt, number, 0, 0);
            number
        }
    }
}
