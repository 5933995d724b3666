// runjob: reads a job file from standard input, runs the job and writes what document 01's printed job says (printed_of, in job's
// specs/Printed.antt). `print_job` writes that text, to any writer whose bytes are known; of standard input and output no contract can say
// which bytes they give and take.
#![tactic(auto)]

mod pending;
mod refusals;
mod space;

ghost use Rattle.std.specs.Prelude.{◌≤◌, IfOk, OnOk, string_bytes, take};
ghost use Rattle.std.specs.Io.KnownBytes.{Appends};
ghost use Rattle.job.specs.Printed.{printed_of};
ghost use Rattle.runjob.specs.SpaceView.{space_code, space_memory};
ghost use Rattle.runjob.specs.PieceView.{Begins};
ghost use Rattle.runjob.specs.StartView.{Blank};

use job::listing::{Counts, EndLine};
use pending::Pending;
use pending::piece::piece;
use pending::start::start;
use reading::read_full;
use space::Space;
use std::alloc::{AllocError, Global};
use std::fmt::Write as _;
use std::io;
use std::io::Write;

// Of a job that is not opened only the refusal's line is printed.
fn first(
    text: &mut String,
    file: &[u8; 65537],
    n: usize,
    space: &mut Space,
) -> Result<Option<Pending>, AllocError>
    requires n_bound { n ≤ 65537 }
    requires blank { Blank (space_code space.old) (space_memory space.old) }
    ensures { IfOk result (λ r. Begins (string_bytes text.old) (string_bytes text.new) (printed_of (take n file.now)) r (space_code space.new) (space_memory space.new)) }
{
    match start(file, n, space) {
        Ok(job) => Ok(Some(job)),
        Err(error) => {
            let nothing = Counts {
                steps: 0,
                pointer: 0,
                depth: 0,
            };
            write!(text, "{}", EndLine::Refused(error.number(), nothing))?;
            Ok(None)
        }
    }
}

// Piece after piece, until no more are to come. A piece's text is written at once: each part of a line to a `BufWriter` took 1.3 times as long.
// The whole text in a lent array of the greatest length was slower for short listings (3.3 ms against 2.2).
fn print_job<W: Write>(
    alloc: Global,
    out: &mut W,
    file: &[u8; 65537],
    n: usize,
    space: &mut Space,
) -> io::Result<()>
    requires n_bound { n ≤ 65537 }
    requires blank { Blank (space_code space.old) (space_memory space.old) }
    ensures { OnOk result (Appends (W.contents out.old) (W.contents out.new) (printed_of (take n file.now))) }
{
    let mut text = String::new(alloc);
    let mut next = first(&mut text, file, n, space)?;
    out.write_all(text.as_bytes())?;
    while let Some(job) = next {
        text.clear();
        next = piece(&mut text, job, space)?;
        out.write_all(text.as_bytes())?;
    }
    Ok(())
}

// One byte more than a file may have is read, so that a longer one is seen.
fn main(rt: HostRuntime) -> io::Result<()> {
    let mut file = [0u8; 65537];
    let n = read_full(&mut rt.stdin(), &mut file)?;
    print_job(
        rt.alloc(),
        &mut io::writer(&rt),
        &file,
        n,
        &mut Space::new(),
    )
}
