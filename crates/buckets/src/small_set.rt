// A set of small numbers in one word. Casts lose nothing, which is proved; `TryFrom` would add a case that cannot come.
ghost use Rattle.std.specs.Prelude.{◌≡◌, ℕ, ◌<◌, false, not, ◌&&◌, ◌||◌, ◌==◌};
ghost use Rattle.buckets.specs.Sets.{member};
ghost use Rattle.buckets.specs.Firsts.{next_from};

// A set of numbers below 64, one bit for each. The bound is asked at each call: who calls proves it from the count of the rows, and has no type for it.
#[derive(Clone, Copy)]
pub struct SmallSet {
    word: u64,
}

impl SmallSet {
    pub(crate) fn none() -> SmallSet
        ensures { (k : ℕ) → member result k ≡ false }
    {
        SmallSet { word: 0 }
    }

    pub(crate) fn insert(&mut self, b: u8)
        requires { b < 64 }
        ensures { (k : ℕ) → member self.new k ≡ (k == b || member self.old k) }
    {
        self.word |= 1 << b;
    }

    pub(crate) fn remove(&mut self, b: u8)
        requires { b < 64 }
        ensures { (k : ℕ) → member self.new k ≡ (member self.old k && not (k == b)) }
    {
        // read first: that gives the word its bound
        let word = self.word;
        self.word = word & !(1 << b);
    }

    // The first member from `at` on, then round from 0.
    pub(crate) fn next(&self, at: u8) -> Option<u8>
        requires { at < 64 }
        ensures { result ≡ next_from (member self.now) 64 at }
    {
        // Three cases by `if`: each counts another word's zeros.
        let high = self.word >> at;
        if high != 0 {
            Some(at + high.trailing_zeros() as u8)
        } else if self.word != 0 {
            Some(self.word.trailing_zeros() as u8)
        } else {
            None
        }
    }
}
