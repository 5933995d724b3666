// A refusal as document 01's number and the three words that it carries.
ghost use Rattle.std.specs.Prelude.{◌≡◌};
ghost use Rattle.machine.specs.Refusal.{refusal, number_a, number_b, number_d, fee_refusal, refusal_of};
ghost use Rattle.machine_refusals.specs.RefusalView.{refusal_in};

use machine::refusal::{FeeError, InstructionError, PlaceA, PlaceB, PlaceD};

#[derive(Clone, Copy, PartialEq, Eq, Debug)]
pub struct Refusal {
    pub number: u64,
    pub word0: u64,
    pub word1: u64,
    pub word2: u64,
}

// A refusal by any number, with the words that it carries.
pub fn carry(number: u64, word0: u64, word1: u64, word2: u64) -> Refusal
    ensures { refusal_in result ≡ refusal number word0 word1 word2 }
{
    Refusal {
        number: number,
        word0: word0,
        word1: word1,
        word2: word2,
    }
}

// By any number, with zeros.
pub fn plainly(number: u64) -> Refusal
    ensures { refusal_in result ≡ refusal number 0 0 0 }
{
    carry(number, 0, 0, 0)
}

fn handed(error: PlaceA) -> u64
    ensures { result ≡ number_a error }
{
    match error {
        PlaceA::BadShape => 1,
        PlaceA::NotAWord => 2,
        PlaceA::InvalidOpcode => 3,
        PlaceA::IllegalArgument => 4,
        PlaceA::BadState => 5,
    }
}

fn before(error: PlaceB) -> u64
    ensures { result ≡ number_b error }
{
    match error {
        PlaceB::MachineHalted => 10,
        PlaceB::InstructionPointerOverflow => 11,
        PlaceB::OpStackTooShallow => 12,
    }
}

fn no_room(error: PlaceD) -> u64
    ensures { result ≡ number_d error }
{
    match error {
        PlaceD::OpStackFull => 30,
        PlaceD::JumpStackFull => 31,
        PlaceD::RamFull => 32,
        PlaceD::OutputFull => 33,
        PlaceD::ClockAtEnd => 34,
    }
}

fn fees(error: FeeError) -> Refusal
    ensures { refusal_in result ≡ fee_refusal error }
{
    match error {
        FeeError::BadFeeTable => plainly(64),
        FeeError::OpcodeWithoutFee(opcode) => carry(65, opcode, 0, 0),
        FeeError::OpcodeWithTwoFees(opcode) => carry(66, opcode, 0, 0),
    }
}

impl From<PlaceA> for Refusal {
    ghost from_gives = { λ e r. refusal_in r ≡ refusal (number_a e) 0 0 0 };

    fn from(error: PlaceA) -> Refusal {
        plainly(handed(error))
    }
}

impl From<InstructionError> for Refusal {
    ghost from_gives = { λ e r. refusal_in r ≡ refusal_of e };

    #[tactic(auto, unfolding(machine::specs::Refusal::refusal_of))]
    fn from(error: InstructionError) -> Refusal {
        match error {
            InstructionError::Handed(e) => plainly(handed(e)),
            InstructionError::Fees(e) => fees(e),
            InstructionError::Before(e) => plainly(before(e)),
            InstructionError::InstructionPointerOverflow => plainly(11),
            InstructionError::FailedU32Conversion(w) => carry(13, w, 0, 0),
            InstructionError::EmptyPublicInput(n) => carry(14, n, 0, 0),
            InstructionError::EmptySecretInput(n) => carry(15, n, 0, 0),
            InstructionError::EmptySecretDigestInput => plainly(16),
            InstructionError::JumpStackIsEmpty => plainly(17),
            InstructionError::AssertionFailed(actual) => carry(18, 1, actual, 0),
            InstructionError::VectorAssertionFailed(i, expected, actual) => {
                carry(19, i, expected, actual)
            }
            InstructionError::InverseOfZero => plainly(20),
            InstructionError::DivisionByZero => plainly(21),
            InstructionError::LogarithmOfZero => plainly(22),
            InstructionError::SpongeNotInitialized => plainly(23),
            InstructionError::NoRoom(e) => plainly(no_room(e)),
        }
    }
}
