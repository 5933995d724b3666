// Why a log is refused.
ghost use Rattle.std.specs.Prelude.{◌≡◌};
ghost use Rattle.replay_scan.specs.FaultView.{fault_number};

#[derive(Clone, Copy, PartialEq, Eq, Debug)]
pub enum Fault {
    // no whole record of a kind of its revision, no direction, or a number that is no word
    Malformed,
    ClockFalls,
    // no record of the op stack at this depth
    WrongPlace,
    WrongRead,
    NoRoom,
    // of one clock, or in two directions
    TooMany,
}

impl Fault {
    // The number that a refusal gives.
    pub fn number(self) -> u64
        ensures { result ≡ fault_number self }
    {
        match self {
            Fault::Malformed => 40,
            Fault::ClockFalls => 41,
            Fault::WrongPlace => 42,
            Fault::WrongRead => 43,
            Fault::NoRoom => 44,
            Fault::TooMany => 45,
        }
    }
}
