// The op stack: its top sixteen words, and what it is after some are taken off and others put on.
ghost use Rattle.std.specs.Prelude.{◌≡◌, ◌+◌, ◌-◌, ◌≤◌, ◌<◌, length};
ghost use Rattle.field.specs.Base.{p};
ghost use Rattle.machine.specs.Words.{Words};
ghost use Rattle.machine.specs.Machine.{top_of, st};
ghost use Rattle.machine.specs.Apply.{applied_stack};
ghost use Rattle.machine_isa.specs.FewWords.{words_of};

use crate::few::Few;

// The top sixteen words, bottom first: ST i is the word at 15 - i.
//
// That they are words stands in the clauses of those who rely on it: as a ghost field it would be asked also by those who take
// any sixteen numbers.
#[derive(Clone, Copy, PartialEq, Eq, Debug)]
pub struct Top {
    pub words: [u64; 16],
}

impl Top {
    #[tactic(auto, unfolding(machine::specs::Machine::top_of))]
    pub fn of(stack: &[u64], depth: usize) -> Self
        requires { (16 ≤ depth) × (depth ≤ length stack.now) }
        ensures { result.words ≡ top_of stack.now depth }
    {
        let mut words = [0; 16];
        words.copy_from_slice(&stack[depth - 16..depth]);
        Top { words }
    }

    pub fn st(&self, i: usize) -> u64
        requires { i < 16 }
        ensures { result ≡ st self.now.words i }
    {
        self.words[15 - i]
    }

    // ST i of a top that holds words.
    #[tactic(auto, using(machine::proofs::Words::words_get_d))]
    pub fn word(&self, i: usize) -> u64
        requires { (Words self.now.words) × (i < 16) }
        ensures value { result ≡ st self.now.words i }
        ensures word { result < p }
    {
        self.st(i)
    }
}

// The stack after `pops` words are taken off and `words` put on; what is freed is 0. The loops are of a few turns, for which
// `copy_from_slice` and `fill` take 1.2 to 1.3 times as long.
pub fn apply(stack: &mut [u64], depth: usize, pops: usize, words: &Few<16>)
    requires { (pops ≤ depth) × (depth ≤ length stack.old) × (depth - pops + words.now.count ≤ length stack.old) }
    ensures { stack.new ≡ applied_stack stack.old depth pops (words_of words.now) }
{
    let base = depth - pops;
    for i in 0..words.count {
        stack[base + i] = words.words[i];
    }
    for j in words.count..pops {
        stack[base + j] = 0;
    }
}
