// The instructions' table: size, argument and depth change of each opcode, and the most bytes that a step writes. An opcode is the number
// that C lends in a slot: an enum of the instructions would ask for a match of 46 arms that makes it, before each match on it.
ghost use Rattle.std.specs.Prelude.{◌≡◌};
ghost use Rattle.choices.specs.Choice.{cond};
ghost use Rattle.machine.specs.Lengths.{most_bytes};
ghost use Rattle.machine.specs.Refusal.{found_a};
ghost use Rattle.machine.specs.Instruction.{decode, known_in, size_of};
ghost use Rattle.machine.specs.PlaceA.{unknown3, argument4};
ghost use Rattle.machine_isa.specs.InstructionView.{argument_of, argument_in, change_of, change_in, grown_in, shrunk_in};

use machine::refusal::PlaceA;

// What argument an instruction takes: none, a number of words, a stack place, or any word.
#[derive(Clone, Copy, PartialEq, Eq, Debug)]
enum Argument {
    Nothing,
    Count,
    StackPlace,
    Word,
}

#[inline(always)]
fn takes(opcode: u64) -> Option<Argument>
    ensures { argument_of result ≡ argument_in (decode opcode) }
{
    match opcode {
        0 | 2 | 4 | 6 | 8 | 10 | 12 | 14 | 16 | 18 | 20 | 22 => Some(Argument::Nothing),
        24 | 26 | 28 | 30 | 32 | 34 | 36 | 40 | 42 | 44 | 48 => Some(Argument::Nothing),
        50 | 56 | 58 | 64 | 66 | 72 | 74 | 80 | 82 | 88 => Some(Argument::Nothing),
        3 | 9 | 11 | 19 | 57 | 73 => Some(Argument::Count),
        17 | 25 | 33 | 41 => Some(Argument::StackPlace),
        1 | 49 | 65 => Some(Argument::Word),
        _ => None,
    }
}

// How many slots an instruction takes: one with an argument takes two.
#[tactic(auto, unfolding(machine::specs::Instruction::size_of))]
pub fn size(opcode: u64) -> u64
    ensures { result ≡ size_of opcode }
{
    match takes(opcode) {
        Some(Argument::Nothing) | None => 1,
        Some(Argument::Count | Argument::StackPlace | Argument::Word) => 2,
    }
}

pub fn is_known(opcode: u64) -> bool
    ensures { result ≡ known_in (decode opcode) }
{
    takes(opcode).is_some()
}

pub fn check_opcode(opcode: u64) -> Result<(), PlaceA>
    ensures { found_a result ≡ unknown3 (decode opcode) }
{
    if is_known(opcode) {
        Ok(())
    } else {
        Err(PlaceA::InvalidOpcode)
    }
}

fn allow(allowed: bool) -> Result<(), PlaceA>
    ensures { found_a result ≡ cond allowed 0 4 }
{
    if allowed {
        Ok(())
    } else {
        Err(PlaceA::IllegalArgument)
    }
}

pub fn check_argument(opcode: u64, argument: u64) -> Result<(), PlaceA>
    ensures { found_a result ≡ argument4 (decode opcode) argument }
{
    match takes(opcode) {
        Some(Argument::Nothing) => allow(argument == 0),
        Some(Argument::Count) => allow((1..=5).contains(&argument)),
        Some(Argument::StackPlace) => allow(argument <= 15),
        Some(Argument::Word) | None => Ok(()),
    }
}

// How an instruction changes the depth; where there is none, it grows by 0.
#[derive(Clone, Copy, PartialEq, Eq, Debug)]
enum Change {
    Grows(u64),
    Shrinks(u64),
    GrowsByArgument,
    ShrinksByArgument,
}

// All opcodes are named, so that the compiler makes a table of it.
#[inline(always)]
fn change_by(opcode: u64) -> Change
    ensures { change_of result ≡ change_in (decode opcode) }
{
    match opcode {
        0 | 8 | 12 | 16 | 20 | 24 | 28 | 32 | 36 | 40 | 44 | 48 | 64 | 72 | 80 | 88 => {
            Change::Grows(0)
        }
        17 | 25 | 41 | 49 | 65 => Change::Grows(0),
        1 | 4 | 33 => Change::Grows(1),
        56 => Change::Grows(10),
        2 | 6 | 10 | 14 | 22 | 30 | 42 | 50 | 58 | 82 => Change::Shrinks(1),
        66 | 74 => Change::Shrinks(3),
        18 | 26 => Change::Shrinks(5),
        34 => Change::Shrinks(10),
        9 | 57 | 73 => Change::GrowsByArgument,
        3 | 11 | 19 => Change::ShrinksByArgument,
        _ => Change::Grows(0),
    }
}

// How many words deeper the op stack is behind it, and how many less deep: one of the two is 0.
pub fn depth_change(opcode: u64, argument: u64) -> (u64, u64)
    ensures grown { result.0 ≡ grown_in (decode opcode) argument }
    ensures shrunk { result.1 ≡ shrunk_in (decode opcode) argument }
{
    match change_by(opcode) {
        Change::Grows(n) => (n, 0),
        Change::Shrinks(n) => (0, n),
        Change::GrowsByArgument => (argument, 0),
        Change::ShrinksByArgument => (0, argument),
    }
}

// The most bytes that the records of a step take, by the log's revision.
pub fn most_bytes(revision: u64) -> usize
    ensures { result ≡ most_bytes revision }
{
    if revision == 2 { 1028 } else { 1024 }
}
