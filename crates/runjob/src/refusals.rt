// Why a job ends, or is not opened, and document 01's number of it.
ghost use Rattle.std.specs.Prelude.{◌≡◌};
ghost use Rattle.machine.specs.Refusal.{refusal_of};
ghost use Rattle.runjob.specs.Refusals.{number_of};

use job::job_file::BrokenFile;
use machine::refusal::InstructionError;
use machine_refusals::refusals::Refusal;

pub fn number(error: InstructionError) -> u64
    ensures { result ≡ (refusal_of error).number }
{
    Refusal::from(error).number
}

// The file is broken, or open refuses the job that it says.
#[derive(Clone, Copy)]
pub enum NotOpened {
    Broken(BrokenFile),
    Refused(InstructionError),
}

impl NotOpened {
    pub fn number(self) -> u64
        ensures { result ≡ number_of self }
    {
        match self {
            NotOpened::Broken(broken) => broken.number(),
            NotOpened::Refused(error) => number(error),
        }
    }
}

impl From<BrokenFile> for NotOpened {
    ghost use Rattle.runjob.specs.declared.refusals.NotOpened.TheVariants.{Broken};

    ghost from_gives = { λ broken r. r ≡ Broken broken };

    fn from(broken: BrokenFile) -> NotOpened {
        NotOpened::Broken(broken)
    }
}

impl From<InstructionError> for NotOpened {
    ghost use Rattle.runjob.specs.declared.refusals.NotOpened.TheVariants.{Refused};

    ghost from_gives = { λ error r. r ≡ Refused error };

    fn from(error: InstructionError) -> NotOpened {
        NotOpened::Refused(error)
    }
}
