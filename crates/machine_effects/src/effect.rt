// What an instruction does; specs/EffectView.antt says which effect it stands for.
ghost use Rattle.std.specs.Prelude.{◌≡◌, ◌≤◌, length};

use machine::refusal::InstructionError;
use machine_isa::few::Few;

#[derive(Clone, Copy)]
pub struct Effect {
    // How many words it takes off the op stack, and which it puts on, the first lowest.
    pub pops: usize,
    pub words: Few<16>,
    pub next: Next,
    pub halts: bool,
    pub jump: JumpChange,
    // How much it takes from each input.
    pub publics: usize,
    pub secrets: usize,
    pub digests: usize,
    // What it puts out.
    pub output: Few<5>,
    // Its calls: of the U32 table, then of RAM.
    pub u32s: U32Calls,
    pub accesses: Accesses,
}

// Where the pointer goes: up by the instruction's size, or to a place.
#[derive(Clone, Copy, PartialEq, Eq, Debug)]
pub enum Next {
    Onward,
    To(u64),
}

// An entry of the jump stack.
#[derive(Clone, Copy, PartialEq, Eq, Debug)]
pub struct JumpEntry {
    pub origin: u64,
    pub destination: u64,
}

#[derive(Clone, Copy, PartialEq, Eq, Debug)]
pub enum JumpChange {
    Stays,
    Pushes(JumpEntry),
    Pops,
}

#[derive(Clone, Copy, PartialEq, Eq, Debug)]
pub struct U32Call {
    pub opcode: u64,
    pub left: u64,
    pub right: u64,
}

#[derive(Clone, Copy, PartialEq, Eq, Debug)]
pub enum U32Calls {
    Zero,
    One(U32Call),
    Two(U32Call, U32Call),
}

#[derive(Clone, Copy, PartialEq, Eq, Debug)]
pub enum Direction {
    Read,
    Write,
}

#[derive(Clone, Copy, PartialEq, Eq, Debug)]
pub struct Access {
    pub address: u64,
    pub value: u64,
}

// At most ten accesses of RAM: the first `count` of an array, as a Few has words, of which the first `reads` are reads and the others
// writes. A Few of any type would ask for a value to fill the array with.
#[derive(Clone, Copy)]
pub struct Accesses {
    pub cells: [Access; 10],
    pub reads: usize,
    pub count: usize,
    pub ghost reads_first: { reads ≤ count },
    pub ghost fits: { count ≤ 10 },
    pub ghost long: { length cells ≡ 10 },
}

// Why an instruction is turned down. Everything stays, or the top word of the op stack is dropped.
#[derive(Clone, Copy)]
pub enum Refused {
    Kept(InstructionError),
    Dropped(InstructionError),
}

pub type Decided = Result<Effect, Refused>;

impl From<InstructionError> for Refused {
    ghost use Rattle.std.specs.Prelude.{◌≡◌};
    ghost use Rattle.machine_effects.specs.declared.effect.Refused.TheVariants.{Kept};

    ghost from_gives = { λ e r. r ≡ Kept e };

    fn from(error: InstructionError) -> Refused {
        Refused::Kept(error)
    }
}

impl U32Call {
    ghost use Rattle.std.specs.Prelude.{◌≡◌};

    pub fn new(opcode: u64, left: u64, right: u64) -> Self
        ensures { result ≡ record { opcode = opcode; left = left; right = right } }
    {
        U32Call {
            opcode,
            left,
            right,
        }
    }
}

impl Access {
    ghost use Rattle.std.specs.Prelude.{◌≡◌};

    // What stands behind the last of a row.
    pub const NONE: Access = Access {
        address: 0,
        value: 0,
    };

    pub fn new(address: u64, value: u64) -> Self
        ensures { result ≡ record { address = address; value = value } }
    {
        Access { address, value }
    }
}

impl Direction {
    ghost use Rattle.std.specs.Prelude.{◌≡◌};
    ghost use Rattle.machine_effects.specs.EffectView.{reads_among};

    // How many of n accesses in this direction are reads.
    fn reads(self, n: usize) -> usize
        ensures { result ≡ reads_among self n }
    {
        match self {
            Direction::Read => n,
            Direction::Write => 0,
        }
    }
}

impl Accesses {
    ghost use Rattle.std.specs.Prelude.{◌≡◌, ◌≤◌, ◌+◌, ◌-◌, [] as Nil, ◌++◌, length, map, take, drop};
    ghost use Rattle.machine_effects.specs.declared.effect.Direction.TheVariants.{Read, Write};
    ghost use Rattle.machine_effects.specs.EffectView.{accesses_of, access_of};

    #[tactic(auto, unfolding(crate::specs::EffectView::first_accesses))]
    pub fn none() -> Self
        ensures { accesses_of result ≡ Nil }
    {
        Accesses {
            cells: [Access::NONE; 10],
            reads: 0,
            count: 0,
        }
    }

    #[tactic(auto, unfolding(crate::specs::EffectView::first_accesses))]
    pub fn of<const K: usize>(direction: Direction, accesses: [Access; K]) -> Self
        requires { K ≤ 10 }
        ensures { accesses_of result ≡ map (access_of direction) accesses.entry }
    {
        let mut cells = [Access::NONE; 10];
        cells[..K].copy_from_slice(&accesses);
        Accesses {
            cells,
            reads: direction.reads(K),
            count: K,
        }
    }

    // Reads, then writes.
    #[tactic(auto, unfolding(crate::specs::EffectView::first_accesses))]
    pub fn reads_then_writes<const K: usize, const N: usize>(
        reads: [Access; K],
        writes: [Access; N],
    ) -> Self
        requires { K + N ≤ 10 }
        ensures { accesses_of result ≡ map (access_of Read) reads.entry ++ map (access_of Write) writes.entry }
    {
        let mut cells = [Access::NONE; 10];
        cells[..K].copy_from_slice(&reads);
        cells[K..K + N].copy_from_slice(&writes);
        Accesses {
            cells,
            reads: K,
            count: K + N,
        }
    }

    pub fn as_slice(&self) -> &[Access]
        ensures cells { result.now ≡ take self.now.count self.now.cells }
        ensures count { length result.now ≡ self.now.count }
    {
        &self.cells[..self.count]
    }

    // Those that are reads.
    pub fn reads_as_slice(&self) -> &[Access]
        ensures cells { result.now ≡ take self.now.reads self.now.cells }
        ensures count { length result.now ≡ self.now.reads }
    {
        &self.cells[..self.reads]
    }

    // Those that are writes.
    pub fn writes_as_slice(&self) -> &[Access]
        ensures cells { result.now ≡ take (self.now.count - self.now.reads) (drop self.now.reads self.now.cells) }
        ensures count { length result.now ≡ self.now.count - self.now.reads }
    {
        &self.cells[self.reads..self.count]
    }
}

impl Effect {
    ghost use Rattle.std.specs.Prelude.{◌≡◌, [] as Nil, ◌++◌};
    ghost use Rattle.machine.specs.Effect.{puts, recording, goes, to, stays};
    ghost use Rattle.machine_isa.specs.FewWords.{words_of};
    ghost use Rattle.machine_effects.specs.EffectView.{effect_of, accesses_of, u32s_of};

    // Takes words off and puts words on, with these calls; all else as it was.
    pub fn recording(pops: usize, words: Few<16>, u32s: U32Calls, accesses: Accesses) -> Self
        ensures { effect_of result ≡ recording (u32s_of u32s ++ accesses_of accesses) pops (words_of words) }
    {
        Effect {
            pops,
            words,
            next: Next::Onward,
            halts: false,
            jump: JumpChange::Stays,
            publics: 0,
            secrets: 0,
            digests: 0,
            output: Few::none(),
            u32s,
            accesses,
        }
    }

    // With no call.
    pub fn puts(pops: usize, words: Few<16>) -> Self
        ensures { effect_of result ≡ puts pops (words_of words) }
    {
        Effect::recording(pops, words, U32Calls::Zero, Accesses::none())
    }

    // Takes words off; all else as it was.
    pub fn takes_off(pops: usize) -> Self
        ensures { effect_of result ≡ puts pops Nil }
    {
        Effect::puts(pops, Few::none())
    }

    // With calls of the U32 table.
    pub fn puts_u32(pops: usize, words: Few<16>, u32s: U32Calls) -> Self
        ensures { effect_of result ≡ recording (u32s_of u32s) pops (words_of words) }
    {
        Effect::recording(pops, words, u32s, Accesses::none())
    }

    // With accesses of RAM.
    pub fn puts_ram(pops: usize, words: Few<16>, accesses: Accesses) -> Self
        ensures { effect_of result ≡ recording (accesses_of accesses) pops (words_of words) }
    {
        Effect::recording(pops, words, U32Calls::Zero, accesses)
    }

    // Takes words off and goes to a place.
    pub fn goes(pops: usize, target: u64) -> Self
        ensures { effect_of result ≡ goes pops (to target) stays }
    {
        Effect {
            next: Next::To(target),
            ..Effect::takes_off(pops)
        }
    }
}
