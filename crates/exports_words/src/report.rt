// What a call answers, as a slice of seven words; with a fee table, of eight.
ghost use Rattle.std.specs.Prelude.{◌≡◌, ◌≤◌, length};
ghost use Rattle.machine.specs.Refusal.{refusal_of};
ghost use Rattle.machine_fees.specs.FeeView.{fees_of};
ghost use Rattle.machine_perform.specs.AnswerView.{answer_in};
ghost use Rattle.machine_steps.specs.RanView.{ending_in};
ghost use Rattle.exports_words.specs.Report.{unrefused, report, misfit, answer_of, said_of, step_report, open_report, run_report, answered_in, answer_words};

use machine::refusal::InstructionError;
use machine::state::VMState;
use machine_fees::fee_table::LentFees;
use machine_refusals::refusals::Refusal;
use machine_steps::answer::Ending;
use tip5::words::copy;

// The words of an answer. The last, by a fee table: what the steps cost, or the row that priced a step.
#[derive(Clone, Copy, PartialEq, Eq, Debug)]
pub struct Report {
    pub ending: u64,
    pub number: u64,
    pub word0: u64,
    pub word1: u64,
    pub word2: u64,
    pub steps: u64,
    pub bytes: u64,
    pub price: u64,
}

// Ended with no refusal.
fn unrefused(ending: u64, steps: u64, bytes: u64, price: u64) -> Report
    ensures { result ≡ report ending unrefused steps bytes price }
{
    Report {
        ending: ending,
        number: 0,
        word0: 0,
        word1: 0,
        word2: 0,
        steps: steps,
        bytes: bytes,
        price: price,
    }
}

fn refused(error: InstructionError, steps: u64, bytes: u64, price: u64) -> Report
    ensures { result ≡ report 3 (refusal_of error) steps bytes price }
{
    let refusal = Refusal::from(error);
    Report {
        ending: 3,
        number: refusal.number,
        word0: refusal.word0,
        word1: refusal.word1,
        word2: refusal.word2,
        steps: steps,
        bytes: bytes,
        price: price,
    }
}

pub fn step_report(answer: Result<(), InstructionError>, bytes: usize, row: usize) -> Report
    ensures { result ≡ step_report (answer_in answer) bytes row }
{
    match answer {
        Ok(()) => unrefused(0, 1, bytes as u64, row as u64),
        Err(error) => refused(error, 0, bytes as u64, row as u64),
    }
}

pub fn open_report(opened: Result<VMState, InstructionError>) -> Report
    ensures { result ≡ open_report (answered_in opened) }
{
    match opened {
        Ok(_) => unrefused(0, 0, 0, 0),
        Err(error) => refused(error, 0, 0, 0),
    }
}

// How many words an answer has: with a fee table one more.
pub fn answer_words(fees: &Option<LentFees<'_>>) -> usize
    ensures { result ≡ answer_words (fees_of fees.now) }
{
    if fees.is_some() { 8 } else { 7 }
}

pub fn run_report(ending: Ending, count: u64, bytes: usize, fee: u64) -> Report
    ensures { result ≡ run_report (ending_in ending) count bytes fee }
{
    match ending {
        Ending::Halted => unrefused(0, count, bytes as u64, fee),
        Ending::Spent => unrefused(1, count, bytes as u64, fee),
        Ending::Full => unrefused(2, count, bytes as u64, fee),
        Ending::TableFull => unrefused(4, count, bytes as u64, fee),
        Ending::Refused(error) => refused(error, count, bytes as u64, fee),
    }
}

// As many of them as the answer has.
pub fn write_answer(answer: &mut [u64], report: Report)
    requires { length answer.old ≤ 8 }
    ensures { answer.new ≡ answer_of (length answer.old) report }
{
    let words = [
        report.ending,
        report.number,
        report.word0,
        report.word1,
        report.word2,
        report.steps,
        report.bytes,
        report.price,
    ];
    let n = answer.len();
    copy(answer, 0, &words, n);
}

// A slice of another length, or a word in the registers that no register can hold: an answer of n words says so, any other stays.
pub fn turn_down(answer: &mut [u64], n: usize)
    requires { n ≤ 8 }
    ensures { answer.new ≡ said_of n answer.old misfit }
{
    if answer.len() == n {
        write_answer(
            answer,
            Report {
                ending: 3,
                number: 1,
                word0: 0,
                word1: 0,
                word2: 0,
                steps: 0,
                bytes: 0,
                price: 0,
            },
        );
    }
}
