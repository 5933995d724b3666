// An entry's bytes, read from the front. Behind the last one there are zeros, and so are the words behind the 512th.
ghost use Rattle.std.specs.Prelude.{◌≤◌};

use std::alloc::{AllocError, Global};

// So many words are read, and those behind them take no bytes.
const WORDS: usize = 512;

// How far places are counted: nothing stands there.
const PLACES: usize = 4096;

// A place, or 4,096 where it is more.
fn place(read: usize) -> usize
    ensures { result ≤ 4096 }
{
    read.min(PLACES)
}

#[derive(Drop)]
pub struct Reader<'a> {
    bytes: &'a [u8],
    // How many were read, those behind the last one too.
    read: usize,
    words: usize,
}

impl<'a> Reader<'a> {
    pub fn new(bytes: &'a [u8]) -> Reader<'a> {
        Reader {
            bytes,
            read: 0,
            words: 0,
        }
    }

    pub fn byte(&mut self) -> u8 {
        let byte = self.bytes.get(self.read).copied().unwrap_or(0);
        self.read = self.read.saturating_add(1);
        byte
    }

    // A word: how many bytes it has, and these bytes.
    pub fn word(&mut self) -> u64 {
        if WORDS <= self.words {
            return 0;
        }
        self.words += 1;
        let mut word = [0u8; 8];
        for i in 0..usize::from(self.byte()) {
            let byte = self.byte();
            if i < 8 {
                word[i] = byte;
            }
        }
        u64::from_le_bytes(word)
    }

    pub fn words(&mut self, alloc: Global, n: usize) -> Result<Vec<u64>, AllocError> {
        let mut words = Vec::new(alloc);
        for _ in 0..n {
            words.push(self.word())?;
        }
        Ok(words)
    }

    // The first words of n pairs, and the second ones.
    pub fn pairs(&mut self, alloc: Global, n: usize) -> Result<(Vec<u64>, Vec<u64>), AllocError> {
        let mut firsts = Vec::new(alloc);
        let mut seconds = Vec::new(alloc);
        for _ in 0..n {
            firsts.push(self.word())?;
            seconds.push(self.word())?;
        }
        Ok((firsts, seconds))
    }

    pub fn bytes(&mut self, alloc: Global, n: usize) -> Result<Vec<u8>, AllocError> {
        let mut bytes = Vec::new(alloc);
        for _ in 0..n {
            bytes.push(self.byte())?;
        }
        Ok(bytes)
    }

    // Whether as many bytes were read as the entry's list says: of 4,096 it is so where more were read, too.
    pub fn is_at_end(&self, len: usize) -> bool {
        place(self.read) == len
    }
}
