// A call with the fee table, or without.
ghost use Rattle.std.specs.Prelude.{◌≤◌};

use std::fmt;

#[derive(Clone, Copy)]
pub enum Fees {
    Unpriced,
    Priced,
}

impl Fees {
    // How many words a call that takes steps answers with.
    pub fn words(self) -> usize
        ensures { result ≤ 8 }
    {
        match self {
            Fees::Unpriced => 7,
            Fees::Priced => 8,
        }
    }
}

// What stands behind the call's name.
impl fmt::Display for Fees {
    fn fmt<W: fmt::Write>(&self, f: &mut fmt::Formatter<W>) -> fmt::Result {
        f.write_str(match self {
            Fees::Unpriced => "",
            Fees::Priced => "_with_fees",
        })
    }
}
