// The records of a log, one after the other.
ghost use Rattle.std.specs.Prelude.{◌≡◌, ◌-◌, ◌≤◌, length};
ghost use Rattle.std.specs.Iterator.{at_most};
ghost use Rattle.replay_scan.specs.RecordsView.{Gives};

use crate::record::{Frame, Head, Log};

// A record's frame, its place, and the place behind it.
#[derive(Clone, Copy)]
pub struct Placed {
    pub at: usize,
    pub next: usize,
    pub frame: Frame,
}

// Those from a place on and before the place `to`. A place where no whole record stands is an error, behind which none comes.
#[derive(Drop)]
pub struct Records<'a> {
    pub log: Log<'a>,
    pub at: usize,
    pub to: usize,
}

impl<'a> Log<'a> {
    // From its start on.
    pub fn records(self, to: usize) -> Records<'a>
        ensures log { result.log ≡ self.entry }
        ensures at { result.at ≡ 0 }
        ensures to { result.to ≡ to }
    {
        Records {
            log: self,
            at: 0,
            to,
        }
    }
}

impl Iterator for Records<'_> {
    type Item = Result<Placed, usize>;

    ghost can_next = { λ s. s.to ≤ length s.log.bytes.now };

    ghost next_gives = { Gives };

    ghost remaining = { λ s. at_most (s.to - s.at) };

    fn next(&mut self) -> Option<Result<Placed, usize>> {
        let at = self.at;
        if self.to <= at {
            return None;
        }
        match self.log.head_at(at) {
            Head::Record(frame) => {
                let next = at + frame.size + 2;
                self.at = next;
                Some(Ok(Placed { at, next, frame }))
            }
            Head::End | Head::Broken => {
                self.at = self.to;
                Some(Err(at))
            }
        }
    }
}
