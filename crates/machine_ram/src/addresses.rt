// The addresses of the used cells: the first `count` of a slice, ascending.
ghost use Rattle.std.specs.Prelude.{◌≡◌, ◌≤◌, nat_lt};
ghost use Rattle.choices.specs.Choice.{cond};
ghost use Rattle.machine_ram.specs.RamView.{Ordered};

#[derive(Clone, Copy)]
pub struct Addresses<'a> {
    pub words: &'a [u64],
    pub count: usize,
    pub ghost ordered: { Ordered words.now count },
}

impl Addresses<'_> {
    ghost use Rattle.std.specs.Prelude.{true};
    ghost use Rattle.machine_ram.specs.RamView.{Spotted, Looked, Above, Below, Guessed};

    // The first place whose address is not below this one, and the word there where it is a used one: the place is one of from
    // to from + left. Because the word at the end of what is left goes along, the compiler moves by the test and does not branch
    // on it. std's `binary_search` branches: at 100 cells it takes 43 ns to this one's 25, at 10,000 80 to 40; only beyond the
    // cache, at a million, 300 to 500.
    fn search(&self, address: u64) -> (usize, u64)
        ensures { Spotted self.now.words.now self.now.count address result.0 result.1 }
    {
        let mut from = 0;
        let mut left = self.count;
        let mut last = 0;
        while 1 < left {
            let half = left / 2;
            let mid = from + half;
            let word = self.words[mid];
            last = behind(last, word, address);
            from = toward(from, mid, word, address);
            left -= half;
        }
        if left == 0 {
            return (from, last);
        }
        let word = self.words[from];
        let next = from + 1;
        (
            toward(from, next, word, address),
            behind(last, word, address),
        )
    }

    // Where an address has its cell, or where its new cell goes.
    pub fn find(&self, address: u64) -> Result<usize, usize>
        ensures { Looked self.now.words.now self.now.count address result }
    {
        let (place, word) = self.search(address);
        if place < self.count && word == address {
            Ok(place)
        } else {
            Err(place)
        }
    }

    // Whether what stands before place i is below an address.
    fn above(&self, i: usize, address: u64) -> bool
        requires { i ≤ self.now.count }
        ensures { Above self.now.words.now i address result }
    {
        i == 0 || self.words[i - 1] < address
    }

    // Whether what stands at place i, if it is a used one, is not.
    fn below(&self, i: usize, address: u64) -> bool
        ensures { Below self.now.words.now self.now.count i address result }
    {
        self.count <= i || address <= self.words[i]
    }

    // The guess, or the place beside it on the side where the address must stand. Any number would do: neither of the two wraps.
    fn beside(&self, address: u64, guess: usize) -> usize {
        if self.count < guess {
            return self.count;
        }
        if self.below(guess, address) {
            if self.above(guess, address) {
                return guess;
            }
            return guess.wrapping_sub(1);
        }
        guess.wrapping_add(1)
    }

    // Whether a guess is the place of an address.
    fn right(&self, address: u64, guess: usize) -> bool
        ensures { Guessed self.now.words.now self.now.count address guess result }
    {
        if self.count < guess {
            return false;
        }
        self.above(guess, address) && self.below(guess, address)
    }

    // What is found at a place that is right.
    fn found_at(&self, address: u64, place: usize) -> Result<usize, usize>
        requires { Guessed self.now.words.now self.now.count address place true }
        ensures { Looked self.now.words.now self.now.count address result }
    {
        if place < self.count && self.words[place] == address {
            Ok(place)
        } else {
            Err(place)
        }
    }

    // The same with a guess at the place: a row of accesses hands on the place it had, and a neighbouring address stands there
    // or beside it. Any guess does, because it is tested, so that a row has nothing to prove of its guesses. A search is made
    // only where the guess and the places beside it are wrong.
    #[inline]
    pub fn find_near(&self, address: u64, guess: usize) -> Result<usize, usize>
        ensures { Looked self.now.words.now self.now.count address result }
    {
        let place = self.beside(address, guess);
        if self.right(address, place) {
            return self.found_at(address, place);
        }
        self.find(address)
    }
}

// Where a search goes on: at the middle where its word is below an address.
fn toward(from: usize, mid: usize, word: u64, address: u64) -> usize
    ensures { result ≡ cond (nat_lt word address) mid from }
{
    if word < address { mid } else { from }
}

// The last word that was not below an address.
fn behind(last: u64, word: u64, address: u64) -> u64
    ensures { result ≡ cond (nat_lt word address) last word }
{
    if word < address { last } else { word }
}

// The place, whether the address has a cell there or not.
pub(crate) fn place_of(found: Result<usize, usize>) -> usize {
    match found {
        Ok(i) | Err(i) => i,
    }
}
