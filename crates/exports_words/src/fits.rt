// Whether the slices of a call fit.
ghost use Rattle.std.specs.Prelude.{◌≡◌};
ghost use Rattle.exports_words.specs.Calls.{fitting_of};

use crate::registers::{read_registers, readable};
use machine::state::VMState;

// The state, where the registers can be read and an answer, or a slice for words of the machine, has n words.
#[tactic(auto, unfolding(crate::specs::Calls::fits_of))]
pub fn fits(registers: &[u64], answer: &[u64], n: usize) -> Option<VMState>
    ensures { result ≡ fitting_of registers.now answer.now n }
{
    if readable(registers) && answer.len() == n {
        Some(read_registers(registers))
    } else {
        None
    }
}
