// The six helper variables of a machine before its step; those not named are 0.
ghost use Rattle.std.specs.Prelude.{◌≡◌, [] as Nil, ◌∷◌, ◌++◌, ◌%◌, ◌<◌, length};
ghost use Rattle.field.specs.Base.{p, add_p, sub_p, inverse_p};
ghost use Rattle.machine.specs.Ram.{held};
ghost use Rattle.machine.specs.Machine.{machine, st};
ghost use Rattle.machine.specs.Lent.{code_of, seen};
ghost use Rattle.machine.specs.Memory.{words_up};
ghost use Rattle.machine.specs.HelperVariables.{filled, argument_bits, next_opcode, opcode_parts, split_helper, next_digest, helpers_at};
ghost use Rattle.machine_ram.specs.LentCells.{cells_of};
ghost use Rattle.machine_helpers.specs.HelpersView.{HelpsAs, HelpersOf, Helpable, HelpersAre};

use crate::seen::Seen;
use field::base;
use machine::lent::{LentCode, SeenMemory};
use machine::state::VMState;
use machine_effects::memory;
use machine_isa::op_stack::Top;
use machine_ram::ram::Ram;

// The argument's digits 0 to 3.
fn argument_bits(n: u64) -> [u64; 6]
    ensures { result ≡ filled (argument_bits n) }
{
    [n % 2, n / 2 % 2, n / 4 % 2, n / 8 % 2, 0, 0]
}

// The inverse of a - b, 0 where they are equal.
fn inverse_of_difference(a: u64, b: u64) -> [u64; 6]
    requires { (a < p) × (b < p) }
    ensures { result ≡ filled (inverse_p (sub_p a b) ∷ Nil) }
{
    [base::inverse_or_zero(base::sub(a, b)), 0, 0, 0, 0, 0]
}

// 1 where the program ends with the slot at the pointer.
#[tactic(auto, unfolding(machine::specs::HelperVariables::next_opcode))]
pub fn next_opcode(opcodes: &[u64], pointer: u64) -> u64
    requires { pointer < length opcodes.now }
    ensures { result ≡ next_opcode opcodes.now pointer }
{
    let next = pointer as usize + 1;
    opcodes.get(next).copied().unwrap_or(1)
}

// Zeros where less than a digest is left.
#[tactic(auto, unfolding(machine::specs::HelperVariables::next_digest))]
fn next_digest(left: &[u64]) -> [u64; 5]
    ensures { result ≡ next_digest left.now }
{
    left.first_chunk().copied().unwrap_or([0; 5])
}

impl Seen<'_> {
    fn recurse_or_return(&self) -> [u64; 6]
        ensures { result ≡ filled (inverse_p (sub_p (st self.now.top.words 6) (st self.now.top.words 5)) ∷ Nil) }
    {
        inverse_of_difference(self.top.word(6), self.top.word(5))
    }

    fn eq(&self) -> [u64; 6]
        ensures { result ≡ filled (inverse_p (sub_p (st self.now.top.words 1) (st self.now.top.words 0)) ∷ Nil) }
    {
        inverse_of_difference(self.top.word(1), self.top.word(0))
    }

    // Shows that the upper half is not 2^32 - 1; where the lower half is 0 it may be.
    fn split(&self) -> [u64; 6]
        ensures { result ≡ filled (split_helper (st self.now.top.words 0) ∷ Nil) }
    {
        let x = self.top.st(0);
        if base::low(x) == 0 {
            [0; 6]
        } else {
            inverse_of_difference(base::high(x), 0xffff_ffff)
        }
    }

    fn skiz(&self) -> [u64; 6]
        requires { self.now.pointer < length self.now.opcodes.now }
        ensures { result ≡ filled (inverse_p (st self.now.top.words 0) ∷ opcode_parts (next_opcode self.now.opcodes.now self.now.pointer)) }
    {
        let o = next_opcode(self.opcodes, self.pointer);
        [
            base::inverse_or_zero(self.top.word(0)),
            o % 2,
            o / 2 % 4,
            o / 8 % 4,
            o / 32 % 4,
            o / 128,
        ]
    }

    // ---- digests and RAM

    fn merkle_step(&self) -> [u64; 6]
        ensures { result ≡ filled (next_digest self.now.digests.now ++ (st self.now.top.words 5 % 2 ∷ Nil)) }
    {
        let d = next_digest(self.digests);
        [d[0], d[1], d[2], d[3], d[4], self.top.st(5) % 2]
    }

    #[tactic(auto, using(crate::proofs::HelpersLaws::up_front))]
    fn merkle_step_mem(&self) -> [u64; 6]
        ensures { result ≡ filled (words_up (cells_of self.now.ram) (st self.now.top.words 7) 5 ++ (st self.now.top.words 5 % 2 ∷ Nil)) }
    {
        let row = memory::read_row(&self.ram, self.top.word(7), memory::UP, 5);
        let d = row.words;
        [d[0], d[1], d[2], d[3], d[4], self.top.st(5) % 2]
    }

    // The last six of the ten words that are absorbed.
    #[tactic(auto, using(crate::proofs::HelpersLaws::up_front))]
    fn sponge_absorb_mem(&self) -> [u64; 6]
        ensures { result ≡ filled (words_up (cells_of self.now.ram) (add_p (st self.now.top.words 0) 4) 6) }
    {
        let start = base::add(self.top.word(0), 4);
        let row = memory::read_row(&self.ram, start, memory::UP, 6);
        let d = row.words;
        [d[0], d[1], d[2], d[3], d[4], d[5]]
    }

    #[tactic(auto, using(crate::proofs::HelpersLaws::up_front))]
    fn xx_dot_step(&self) -> [u64; 6]
        ensures { result ≡ filled (words_up (cells_of self.now.ram) (st self.now.top.words 0) 3 ++ words_up (cells_of self.now.ram) (st self.now.top.words 1) 3) }
    {
        let left = memory::read_row(&self.ram, self.top.word(0), memory::UP, 3);
        let right = memory::read_row(&self.ram, self.top.word(1), memory::UP, 3);
        let x = left.words;
        let y = right.words;
        [x[0], x[1], x[2], y[0], y[1], y[2]]
    }

    #[tactic(auto, using(crate::proofs::HelpersLaws::up_front))]
    fn xb_dot_step(&self) -> [u64; 6]
        ensures { result ≡ filled (held (cells_of self.now.ram) (st self.now.top.words 0) ∷ words_up (cells_of self.now.ram) (st self.now.top.words 1) 3) }
    {
        let x = self.ram.read(self.top.word(0));
        let row = memory::read_row(&self.ram, self.top.word(1), memory::UP, 3);
        let y = row.words;
        [x, y[0], y[1], y[2], 0, 0]
    }

    // ---- all instructions

    fn of_slot(&self, opcode: u64, argument: u64) -> [u64; 6]
        requires { self.now.pointer < length self.now.opcodes.now }
        ensures { HelpsAs self.now opcode argument result }
    {
        match opcode {
            3 | 9 | 11 | 17 | 19 | 25 | 33 | 41 | 57 | 73 => argument_bits(argument),
            2 => self.skiz(),
            32 => self.recurse_or_return(),
            48 => self.sponge_absorb_mem(),
            36 => self.merkle_step(),
            44 => self.merkle_step_mem(),
            4 => self.split(),
            58 => self.eq(),
            80 => self.xx_dot_step(),
            88 => self.xb_dot_step(),
            _ => [0; 6],
        }
    }

    // Outside the program there is no slot, and they are zeros.
    pub fn helpers(&self) -> [u64; 6]
        ensures { HelpersOf self.now result }
    {
        let at = self.pointer as usize;
        if at < self.opcodes.len() {
            self.of_slot(self.opcodes[at], self.arguments[at])
        } else {
            [0; 6]
        }
    }
}

pub fn helpers<'a>(state: &VMState, code: &LentCode<'a>, memory: &SeenMemory<'a>) -> [u64; 6]
    requires { Helpable (machine state.now (code_of code.now) (seen memory.now)) }
    ensures own { result ≡ helpers_at (machine state.now (code_of code.now) (seen memory.now)) }
    ensures alike { HelpersAre (machine state.now (code_of code.now) (seen memory.now)) result }
{
    let top = Top::of(memory.op_stack, state.depth);
    let ram = Ram {
        addresses: memory.addresses,
        values: memory.values,
        count: state.cells,
    };
    let seen = Seen {
        pointer: state.pointer,
        top,
        opcodes: code.opcodes,
        arguments: code.arguments,
        digests: &code.digests[5 * state.digests..],
        ram,
    };
    seen.helpers()
}
