// At most N words: the first `count` of an array. An `ArrayVec` is not Copy, as an effect and all that is made of it are.
ghost use Rattle.std.specs.Prelude.{◌≡◌, ◌≤◌, length};

#[derive(Clone, Copy)]
pub struct Few<const N: usize> {
    pub words: [u64; N],
    pub count: usize,
    pub ghost fits: { count ≤ length words },
}

impl<const N: usize> Few<N> {
    ghost use Rattle.std.specs.Prelude.{[] as Nil};
    ghost use Rattle.machine_isa.specs.FewWords.{words_of};

    #[inline(always)]
    pub fn none() -> Self
        ensures { words_of result ≡ Nil }
    {
        Few {
            words: [0; N],
            count: 0,
        }
    }

    #[inline(always)]
    pub fn of<const K: usize>(words: [u64; K]) -> Self
        requires { K ≤ N }
        ensures words { words_of result ≡ words.entry }
        ensures count { result.count ≡ K }
    {
        let mut all = [0; N];
        all[..K].copy_from_slice(&words);
        Few {
            words: all,
            count: K,
        }
    }

    pub fn from_slice(s: &[u64]) -> Self
        requires { length s.now ≤ N }
        ensures words { words_of result ≡ s.now }
        ensures count { result.count ≡ length s.now }
    {
        let mut all = [0; N];
        all[..s.len()].copy_from_slice(s);
        Few {
            words: all,
            count: s.len(),
        }
    }

    pub fn as_slice(&self) -> &[u64]
        ensures { result.now ≡ words_of self.now }
    {
        &self.words[..self.count]
    }
}
