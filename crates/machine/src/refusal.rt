// Why a call is turned down. The names are the Rust's where it has them; specs/Refusal.antt gives each its number and words.
ghost use Rattle.std.specs.Prelude.{◌≡◌};
ghost use Rattle.machine.specs.declared.refusal.InstructionError.TheVariants.{Handed, Fees, Before, NoRoom};

// Place A: what is wrong with what a call is handed.
#[derive(Clone, Copy, PartialEq, Eq, Debug)]
pub enum PlaceA {
    // A slice over the limit or of a length that does not fit.
    BadShape,
    NotAWord,
    InvalidOpcode,
    // An argument that its instruction does not take, or a revision of the log that there is not.
    IllegalArgument,
    // A count outside its slice, an unused word that is not 0, RAM's cells not ascending by address.
    BadState,
}

// Behind place A: what is wrong with a fee table of a good shape.
#[derive(Clone, Copy, PartialEq, Eq, Debug)]
pub enum FeeError {
    // Over 64 rows, or one whose lowest opcode is above its highest.
    BadFeeTable,
    // The lowest opcode in no row.
    OpcodeWithoutFee(u64),
    // The lowest opcode in two rows or more.
    OpcodeWithTwoFees(u64),
}

// Place B: what turns an instruction down before it is looked at.
#[derive(Clone, Copy, PartialEq, Eq, Debug)]
pub enum PlaceB {
    MachineHalted,
    InstructionPointerOverflow,
    OpStackTooShallow,
}

// Place D: what an effect has no room for.
#[derive(Clone, Copy, PartialEq, Eq, Debug)]
pub enum PlaceD {
    OpStackFull,
    JumpStackFull,
    RamFull,
    OutputFull,
    ClockAtEnd,
}

#[derive(Clone, Copy, PartialEq, Eq, Debug)]
pub enum InstructionError {
    Handed(PlaceA),
    Fees(FeeError),
    Before(PlaceB),
    // Place C.
    InstructionPointerOverflow,
    FailedU32Conversion(u64),
    EmptyPublicInput(u64),
    EmptySecretInput(u64),
    EmptySecretDigestInput,
    JumpStackIsEmpty,
    AssertionFailed(u64),
    VectorAssertionFailed(u64, u64, u64),
    InverseOfZero,
    DivisionByZero,
    LogarithmOfZero,
    SpongeNotInitialized,
    NoRoom(PlaceD),
}

// Written by hand: a clause names what a `?` makes of a fault, which a derived impl does not say.

impl From<PlaceA> for InstructionError {
    ghost from_gives = { λ e r. r ≡ Handed e };

    fn from(e: PlaceA) -> InstructionError {
        InstructionError::Handed(e)
    }
}

impl From<FeeError> for InstructionError {
    ghost from_gives = { λ e r. r ≡ Fees e };

    fn from(e: FeeError) -> InstructionError {
        InstructionError::Fees(e)
    }
}

impl From<PlaceB> for InstructionError {
    ghost from_gives = { λ e r. r ≡ Before e };

    fn from(e: PlaceB) -> InstructionError {
        InstructionError::Before(e)
    }
}

impl From<PlaceD> for InstructionError {
    ghost from_gives = { λ e r. r ≡ NoRoom e };

    fn from(e: PlaceD) -> InstructionError {
        InstructionError::NoRoom(e)
    }
}
