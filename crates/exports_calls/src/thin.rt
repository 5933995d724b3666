// step over the register record that the host lends.
ghost use Rattle.std.specs.Prelude.{◌≡◌};
ghost use Rattle.machine.specs.Lent.{code_of, memory_of, Keeps};
ghost use Rattle.exports_calls.specs.ThinCall.{state_in, registers_in, thinly, thin_call};

use exports_words::report::{step_report, write_answer};
use machine::lent::{LentCode, LentMemory};
use machine::state::VMState;
use machine_vm::step::step;
use tip5::sponge::Sponge;

// The registers as C lays them out: 216 bytes, each of them a field's. The three reserved fields stay as they are; without them the
// compiler would fill their bytes with what stood on the stack, since the record is stored whole.
#[repr(C)]
#[derive(Clone, Copy)]
pub struct Registers {
    pub clock: u32,
    pub reserved: u32,
    pub pointer: u64,
    pub depth: usize,
    pub jumps: usize,
    pub cells: usize,
    pub outputs: usize,
    pub publics: usize,
    pub secrets: usize,
    pub digests: usize,
    pub halted: bool,
    // Whether the sponge is set, and its words.
    pub set: bool,
    pub reserved2: u16,
    pub reserved4: u32,
    pub words: [u64; 16],
    pub revision: u64,
}

impl From<Registers> for VMState {
    ghost from_gives = { λ r s. s ≡ state_in r };

    fn from(r: Registers) -> VMState {
        let words = r.words;
        VMState {
            clock: r.clock,
            pointer: r.pointer,
            depth: r.depth,
            jumps: r.jumps,
            cells: r.cells,
            outputs: r.outputs,
            publics: r.publics,
            secrets: r.secrets,
            digests: r.digests,
            sponge: Sponge { words, set: r.set },
            halted: r.halted,
            revision: r.revision,
        }
    }
}

// The registers behind a call, in the place of the record r.
fn registers_in(r: Registers, s: VMState) -> Registers
    ensures { result ≡ registers_in r s }
{
    let sponge = s.sponge;
    let words = sponge.words;
    Registers {
        clock: s.clock,
        reserved: r.reserved,
        pointer: s.pointer,
        depth: s.depth,
        jumps: s.jumps,
        cells: s.cells,
        outputs: s.outputs,
        publics: s.publics,
        secrets: s.secrets,
        digests: s.digests,
        halted: s.halted,
        set: sponge.set,
        reserved2: r.reserved2,
        reserved4: r.reserved4,
        words,
        revision: s.revision,
    }
}

// A step over the record that is lent.
pub fn thin_call(
    registers: &mut Registers,
    answer: &mut [u64],
    code: &LentCode<'_>,
    memory: &mut LentMemory<'_>,
    calls: &mut [u8],
) -> u64
    ensures gives { thinly result registers.new answer.new (memory_of memory.new) calls.new
        ≡ thin_call registers.old answer.old (code_of code.now) (memory_of memory.old) calls.old }
    ensures lent { Keeps memory.old memory.new }
{
    if answer.len() != 7 {
        return 1;
    }
    let priced = step(None, VMState::from(*registers), code, memory, calls);
    let r = priced.stepped;
    let report = step_report(r.answer, r.bytes, 0);
    write_answer(answer, report);
    *registers = registers_in(*registers, r.state);
    report.number
}
