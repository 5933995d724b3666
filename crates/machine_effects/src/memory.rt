// The instructions that read and write RAM. Addresses go on modulo P.
ghost use Rattle.std.specs.Prelude.{◌≡◌, ◌≤◌, ◌<◌};
ghost use Rattle.field.specs.Base.{p};
ghost use Rattle.machine.specs.Words.{Words};
ghost use Rattle.machine.specs.Machine.{st};
ghost use Rattle.machine.specs.Memory.{read_mem_of, write_mem_of};
ghost use Rattle.machine_ram.specs.LentCells.{cells_of};
ghost use Rattle.machine_effects.specs.EffectView.{decision_of};
ghost use Rattle.machine_effects.specs.MemoryView.{ReadBy, Written};

use crate::effect::{Access, Accesses, Decided, Effect};
use field::base;
use machine_isa::few::Few;
use machine_isa::op_stack::Top;
use machine_ram::ram::Ram;

// From one address to the next, up or down: what is added modulo P, so that both are one function.
pub const UP: u64 = 1;

pub const DOWN: u64 = base::P - 1;

// Accesses in a row, their values once more as words to put on, and the address behind the last.
#[derive(Clone, Copy)]
pub struct Row {
    pub accesses: Accesses,
    pub words: [u64; 16],
    pub next: u64,
}

// Reads the n words at start, start + step, .., each looked for beside the one before. The loop goes by index, since it fills two arrays
// to the same place.
pub fn read_row(ram: &Ram<'_>, start: u64, step: u64, n: usize) -> Row
    requires { (start < p) × (step < p) × (n ≤ 10) }
    ensures { ReadBy step (cells_of ram.now) start n result }
{
    let mut cells = [Access::NONE; 10];
    let mut words = [0; 16];
    let mut address = start;
    let mut guess = 0;
    for i in 0..n {
        let (value, place) = ram.read_near(address, guess);
        cells[i] = Access { address, value };
        words[i] = value;
        address = base::add(address, step);
        guess = place;
    }
    let accesses = Accesses {
        cells,
        reads: n,
        count: n,
    };
    Row {
        accesses,
        words,
        next: address,
    }
}

pub fn read_mem(ram: &Ram<'_>, w: &Top, n: usize) -> Decided
    requires { (st w.now.words 0 < p) × (n ≤ 5) }
    ensures { decision_of result ≡ read_mem_of (cells_of ram.now) w.now.words n }
{
    let row = read_row(ram, w.st(0), DOWN, n);
    let mut words = row.words;
    words[n] = row.next;
    let put = Few {
        words,
        count: n + 1,
    };
    Ok(Effect::puts_ram(1, put, row.accesses))
}

// The writes of ST 1, ST 2, .. to start, start + 1, .., and the address behind the last.
fn write_row(w: &Top, start: u64, n: usize) -> (Accesses, u64)
    requires { (start < p) × (n ≤ 5) }
    ensures { Written w.now.words start n result.0 result.1 }
{
    let mut cells = [Access::NONE; 10];
    let mut address = start;
    for i in 0..n {
        let value = w.st(i + 1);
        cells[i] = Access { address, value };
        address = base::add(address, 1);
    }
    let accesses = Accesses {
        cells,
        reads: 0,
        count: n,
    };
    (accesses, address)
}

pub fn write_mem(w: &Top, n: usize) -> Decided
    requires { (Words w.now.words) × (n ≤ 5) }
    ensures { decision_of result ≡ write_mem_of w.now.words n }
{
    let (accesses, next) = write_row(w, w.st(0), n);
    Ok(Effect::puts_ram(n + 1, Few::of([next]), accesses))
}
