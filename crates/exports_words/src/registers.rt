// The registers as a slice of 28 words.
ghost use Rattle.std.specs.Prelude.{◌≡◌, length};
ghost use Rattle.exports_words.specs.Registers.{registers_of, state_of, Readable, readable_of};

use machine::state::VMState;
use tip5::sponge::Sponge;
use tip5::words::copy;

// 28 words, a clock of 32 bits, and marks that are 0 or 1. The revision may be any word: place A tries it.
#[tactic(auto, unfolding(crate::specs::Registers::readable_of))]
pub fn readable(registers: &[u64]) -> bool
    ensures { result ≡ readable_of registers.now }
{
    registers.len() == 28 && registers[0] < 4294967296 && registers[9] < 2 && registers[10] < 2
}

pub fn read_registers(registers: &[u64]) -> VMState
    requires { Readable registers.now }
    ensures { result ≡ state_of registers.now }
{
    let mut words = [0u64; 16];
    copy(&mut words, 0, &registers[11..], 16);
    let sponge = Sponge {
        words: words,
        set: registers[10] == 1,
    };
    VMState {
        clock: registers[0] as u32,
        pointer: registers[1],
        depth: registers[2] as usize,
        jumps: registers[3] as usize,
        cells: registers[4] as usize,
        outputs: registers[5] as usize,
        publics: registers[6] as usize,
        secrets: registers[7] as usize,
        digests: registers[8] as usize,
        sponge: sponge,
        halted: registers[9] == 1,
        revision: registers[27],
    }
}

pub fn write_registers(registers: &mut [u64], state: VMState)
    requires { length registers.old ≡ 28 }
    ensures { registers.new ≡ registers_of state }
{
    let sponge = state.sponge;
    let words = sponge.words;
    let head = [
        state.clock as u64,
        state.pointer,
        state.depth as u64,
        state.jumps as u64,
        state.cells as u64,
        state.outputs as u64,
        state.publics as u64,
        state.secrets as u64,
        state.digests as u64,
        u64::from(state.halted),
        u64::from(sponge.set),
    ];
    let last = [state.revision];
    copy(&mut registers[..], 0, &head, 11);
    copy(&mut registers[..], 11, &words, 16);
    copy(&mut registers[..], 27, &last, 1);
}
