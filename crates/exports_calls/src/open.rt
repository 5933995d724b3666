// open over numbers and slices.
ghost use Rattle.std.specs.Prelude.{◌≡◌, length};
ghost use Rattle.machine.specs.Lent.{code_of, opening_of, KeepsOpening};
ghost use Rattle.machine_fees.specs.FeeView.{fees_of};
ghost use Rattle.exports_words.specs.Calls.{called};
ghost use Rattle.exports_calls.specs.OpenCall.{open_fits_of, registers_behind, open_call};

use exports_words::registers::write_registers;
use exports_words::report::{open_report, turn_down, write_answer};
use machine::lent::{LentCode, OpeningMemory};
use machine::refusal::InstructionError;
use machine::state::VMState;
use machine_fees::fee_table::LentFees;
use machine_open::open::open;

// The words that the registers hold do not matter: they are not read.
#[tactic(auto, unfolding(crate::specs::OpenCall::open_fits_of))]
fn open_fits(registers: &[u64], answer: &[u64], digest: &[u64]) -> bool
    ensures { result ≡ open_fits_of registers.now answer.now digest.now }
{
    registers.len() == 28 && answer.len() == 7 && digest.len() == 5
}

fn read_digest(digest: &[u64]) -> [u64; 5]
    requires { length digest.now ≡ 5 }
    ensures { result ≡ digest.now }
{
    let mut words = [0u64; 5];
    words.copy_from_slice(digest);
    words
}

// The registers of a job that is opened; of one that is not, the words stay.
fn write_opened(registers: &mut [u64], opened: Result<VMState, InstructionError>)
    requires { length registers.old ≡ 28 }
    ensures { registers.new ≡ registers_behind opened registers.old }
{
    if let Ok(state) = opened {
        write_registers(registers, state);
    }
}

// A refused open changes nothing that is lent, and the registers keep their words.
pub fn open_call(
    registers: &mut [u64],
    answer: &mut [u64],
    fees: Option<LentFees<'_>>,
    revision: u64,
    digest: &[u64],
    cells: u64,
    code: &LentCode<'_>,
    memory: &mut OpeningMemory<'_>,
) -> u64
    ensures gives { called result registers.new answer.new (opening_of memory.new)
        ≡ open_call (fees_of fees.entry) registers.old answer.old revision digest.now cells (code_of code.now) (opening_of memory.old) }
    ensures lent { KeepsOpening memory.old memory.new }
{
    if !open_fits(registers, answer, digest) {
        turn_down(answer, 7);
        return 1;
    }
    let words = read_digest(digest);
    let opened = open(fees, revision, &words, cells as usize, code, memory);
    let report = open_report(opened);
    write_opened(registers, opened);
    write_answer(answer, report);
    report.number
}
