// The slices that a step is lent. Pairs, as opcodes and arguments, are two of them: the machine's calls take them so.
ghost use Rattle.std.specs.Prelude.{◌≤◌, length, IfOk};

use crate::counts::{Counts, Head, Lengths, lent};
use crate::reader::Reader;
use std::alloc::{AllocError, Global};

// As many words as are lent, with zeros behind those that the entry has.
fn lend(words: &mut Vec<u64>, said: usize) -> Result<(), AllocError>
    ensures { IfOk result (λ _. length words.new.items ≤ 64) }
{
    words.resize(lent(said), 0)
}

#[derive(Drop)]
pub struct Code {
    pub opcodes: Vec<u64>,
    pub arguments: Vec<u64>,
    pub public: Vec<u64>,
    pub secret: Vec<u64>,
    pub digests: Vec<u64>,
}

impl Code {
    pub fn read(alloc: Global, entry: &mut Reader, head: Head) -> Result<Code, AllocError> {
        let (opcodes, arguments) = entry.pairs(alloc, head.slots)?;
        let public = entry.words(alloc, head.publics)?;
        let secret = entry.words(alloc, head.secrets)?;
        let digests = entry.words(alloc, head.digests)?;
        Ok(Code {
            opcodes,
            arguments,
            public,
            secret,
            digests,
        })
    }

    pub fn resize(&mut self, lengths: Lengths) -> Result<(), AllocError>
        ensures { IfOk result (λ _. (length self.new.opcodes.items ≤ 64) × (length self.new.arguments.items ≤ 64) × (length self.new.public.items ≤ 64) × (length self.new.secret.items ≤ 64) × (length self.new.digests.items ≤ 64)) }
    {
        lend(&mut self.opcodes, lengths.opcodes)?;
        lend(&mut self.arguments, lengths.arguments)?;
        lend(&mut self.public, lengths.public)?;
        lend(&mut self.secret, lengths.secret)?;
        lend(&mut self.digests, lengths.digests)
    }
}

#[derive(Drop)]
pub struct Memory {
    pub op_stack: Vec<u64>,
    pub origins: Vec<u64>,
    pub destinations: Vec<u64>,
    pub addresses: Vec<u64>,
    pub values: Vec<u64>,
    pub output: Vec<u64>,
}

impl Memory {
    pub fn read(alloc: Global, entry: &mut Reader, counts: Counts) -> Result<Memory, AllocError> {
        let op_stack = entry.words(alloc, counts.depth)?;
        let (origins, destinations) = entry.pairs(alloc, counts.jumps)?;
        let (addresses, values) = entry.pairs(alloc, counts.cells)?;
        let output = entry.words(alloc, counts.outputs)?;
        Ok(Memory {
            op_stack,
            origins,
            destinations,
            addresses,
            values,
            output,
        })
    }

    pub fn resize(&mut self, lengths: Lengths) -> Result<(), AllocError>
        ensures { IfOk result (λ _. (length self.new.op_stack.items ≤ 64) × (length self.new.origins.items ≤ 64) × (length self.new.destinations.items ≤ 64) × (length self.new.addresses.items ≤ 64) × (length self.new.values.items ≤ 64) × (length self.new.output.items ≤ 64)) }
    {
        lend(&mut self.op_stack, lengths.op_stack)?;
        lend(&mut self.origins, lengths.origins)?;
        lend(&mut self.destinations, lengths.destinations)?;
        lend(&mut self.addresses, lengths.addresses)?;
        lend(&mut self.values, lengths.values)?;
        lend(&mut self.output, lengths.output)
    }
}
