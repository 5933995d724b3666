// What the helper variables look at. The pointer may stand outside the program, as that of an instruction's Handed may not.
ghost use Rattle.std.specs.Prelude.{◌≡◌, length};
ghost use Rattle.machine.specs.Words.{Words};
ghost use Rattle.machine_helpers.specs.WordsProp.{Words-prop};

use machine_isa::op_stack::Top;
use machine_ram::ram::Ram;

// Pointer and top of the op stack, the program, what is left of the secret digests, and RAM.
#[derive(Clone, Copy)]
pub struct Seen<'a> {
    pub pointer: u64,
    pub top: Top,
    pub opcodes: &'a [u64],
    pub arguments: &'a [u64],
    pub digests: &'a [u64],
    pub ram: Ram<'a>,
    pub ghost words: { Words top.words } by { Words-prop top.words },
    pub ghost slots: { length opcodes.now ≡ length arguments.now },
}
