// What has been read at the last clock.
ghost use Rattle.std.specs.Prelude.{◌≤◌};
ghost use Rattle.replay.specs.Replay.{most_records};

// The direction of its stack records, and how many records are of the stack and of RAM. The direction is a whole word: with a byte, as an enum
// is one, the padding behind it is copied with each record, which takes 20.6 ns a stack record in place of 7.6.
#[derive(Clone, Copy)]
pub struct Counts {
    pub last: u64,
    pub way: u64,
    pub stacks: u64,
    pub rams: u64,
    // no more than are allowed
    ghost few_stacks: { stacks ≤ most_records },
    ghost few_rams: { rams ≤ most_records },
}

impl Counts {
    ghost use Rattle.std.specs.Prelude.{◌≡◌, false as False, ◌+◌, eqb};
    ghost use Rattle.choices.specs.Choice.{cond, first_of, above_of, differ_of};
    ghost use Rattle.replay.specs.Replay.{tally, tally_at};
    ghost use Rattle.replay_scan.specs.CountsView.{tally_of, number45};

    // None yet, at a clock.
    pub fn none(clock: u64) -> Counts
        ensures { tally_of result ≡ tally clock 0 0 0 }
    {
        Counts {
            last: clock,
            way: 0,
            stacks: 0,
            rams: 0,
        }
    }

    // At a clock: counting starts anew where that is not the last one.
    pub fn at(self, clock: u64) -> Counts
        ensures { tally_of result ≡ tally_at (tally_of self) clock }
    {
        if self.last == clock {
            return self;
        }
        Counts::none(clock)
    }

    // Whether a stack record more, with what is counted at its clock, goes another way or is one too many.
    pub fn stack_over(self, dir: u64) -> bool
        ensures { number45 result ≡ first_of (cond (eqb self.stacks 0) 0 (differ_of dir self.way 45)) (above_of (self.stacks + 1) most_records 45) }
    {
        if self.stacks == 0 {
            return false;
        }
        if dir != self.way {
            return true;
        }
        10 <= self.stacks
    }

    // Whether a RAM record more is one too many.
    pub fn ram_over(self) -> bool
        ensures { number45 result ≡ above_of (self.rams + 1) most_records 45 }
    {
        10 <= self.rams
    }
}
