// What is lent with each call, and goes from function to function as one. Pairs, as opcodes and arguments, are two slices: C lends
// them so.
ghost use Rattle.std.specs.Prelude.{◌≡◌};
ghost use Rattle.machine.specs.Lent.{memory_of, opening_of, seen};

// The program, a list of slots, and the inputs; five words are a secret digest.
#[derive(Clone, Copy)]
pub struct LentCode<'a> {
    pub opcodes: &'a [u64],
    pub arguments: &'a [u64],
    pub public: &'a [u64],
    pub secret: &'a [u64],
    pub digests: &'a [u64],
}

// What a call may change: op stack, bottom first; jump stack, by origins and destinations; RAM, by addresses and values; output.
#[derive(Drop)]
pub struct LentMemory<'a> {
    pub op_stack: &'a mut [u64],
    pub origins: &'a mut [u64],
    pub destinations: &'a mut [u64],
    pub addresses: &'a mut [u64],
    pub values: &'a mut [u64],
    pub output: &'a mut [u64],
}

// The same, to be looked at only.
#[derive(Clone, Copy)]
pub struct SeenMemory<'a> {
    pub op_stack: &'a [u64],
    pub origins: &'a [u64],
    pub destinations: &'a [u64],
    pub addresses: &'a [u64],
    pub values: &'a [u64],
    pub output: &'a [u64],
}

// Memory as an opening is lent it: it may change the three stacks, and only looks at RAM and output.
#[derive(Drop)]
pub struct OpeningMemory<'a> {
    pub op_stack: &'a mut [u64],
    pub origins: &'a mut [u64],
    pub destinations: &'a mut [u64],
    pub addresses: &'a [u64],
    pub values: &'a [u64],
    pub output: &'a [u64],
}

// The two structs differ in which slices may change, so that `look` is written for each.

impl OpeningMemory<'_> {
    pub fn look(&self) -> SeenMemory<'_>
        ensures { seen result ≡ opening_of self.now }
    {
        SeenMemory {
            op_stack: &*self.op_stack,
            origins: &*self.origins,
            destinations: &*self.destinations,
            addresses: self.addresses,
            values: self.values,
            output: self.output,
        }
    }
}

impl LentMemory<'_> {
    pub fn look(&self) -> SeenMemory<'_>
        ensures { seen result ≡ memory_of self.now }
    {
        SeenMemory {
            op_stack: &*self.op_stack,
            origins: &*self.origins,
            destinations: &*self.destinations,
            addresses: &*self.addresses,
            values: &*self.values,
            output: &*self.output,
        }
    }
}
