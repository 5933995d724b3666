// The job that a file says, opened.
ghost use Rattle.std.specs.Prelude.{◌≤◌, take};
ghost use Rattle.runjob.specs.SpaceView.{space_code, space_memory};
ghost use Rattle.runjob.specs.StartView.{Blank, Starts};

use crate::pending::Pending;
use crate::refusals::NotOpened;
use crate::space::Space;
use job::job_file::{Words, read_job};
use machine::lent::{LentCode, OpeningMemory};
use machine_open::open::open;

// The file is the first n bytes: one more than a file may have are read, so that a longer one is seen.
pub fn start(file: &[u8; 65537], n: usize, space: &mut Space) -> Result<Pending, NotOpened>
    requires n_bound { n ≤ 65537 }
    requires blank { Blank (space_code space.old) (space_memory space.old) }
    ensures { Starts (take n file.now) result (space_code space.new) (space_memory space.new) }
{
    let mut words = Words {
        opcodes: &mut space.opcodes,
        arguments: &mut space.arguments,
        public: &mut space.public,
        secret: &mut space.secret,
        digests: &mut space.digests,
        addresses: &mut space.addresses,
        values: &mut space.values,
    };
    let read: &[u8] = file;
    let j = read_job(&read[..n], &mut words)?;
    let slots = j.slots;
    let publics = j.publics;
    let secrets = j.secrets;
    let digests = j.digests;
    let code = LentCode {
        opcodes: &space.opcodes[..slots],
        arguments: &space.arguments[..slots],
        public: &space.public[..publics],
        secret: &space.secret[..secrets],
        digests: &space.digests[..digests],
    };
    let mut memory = OpeningMemory {
        op_stack: &mut space.op_stack,
        origins: &mut space.origins,
        destinations: &mut space.destinations,
        addresses: &space.addresses,
        values: &space.values,
        output: &space.output,
    };
    let digest = j.digest;
    let state = open(None, 1, &digest, j.cells, &code, &mut memory)?;
    Ok(Pending {
        slots,
        publics,
        secrets,
        digests,
        done: 0,
        budget: j.budget,
        state,
    })
}
