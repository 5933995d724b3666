// Why replay refuses.
ghost use Rattle.std.specs.Prelude.{◌≡◌};
ghost use Rattle.replay_calls.specs.RefusalView.{refusal_number};
ghost use Rattle.replay_calls.specs.declared.refusal.Refusal.TheVariants.{Lent, Log};

use machine::refusal::PlaceA;
use machine_refusals::refusals::Refusal as Numbered;
use replay_scan::fault::Fault;

#[derive(Clone, Copy, PartialEq, Eq, Debug)]
pub enum Refusal {
    Lent(PlaceA),
    Log(Fault),
}

impl Refusal {
    pub fn number(self) -> u64
        ensures { result ≡ refusal_number self }
    {
        match self {
            Refusal::Lent(error) => Numbered::from(error).number,
            Refusal::Log(fault) => fault.number(),
        }
    }
}

impl From<PlaceA> for Refusal {
    ghost from_gives = { λ error r. r ≡ Lent error };

    fn from(error: PlaceA) -> Refusal {
        Refusal::Lent(error)
    }
}

impl From<Fault> for Refusal {
    ghost from_gives = { λ fault r. r ≡ Log fault };

    fn from(fault: Fault) -> Refusal {
        Refusal::Log(fault)
    }
}
