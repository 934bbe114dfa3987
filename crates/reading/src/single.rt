// Making one grade: from what a word spells, and the one of 0.
ghost use Rattle.std.specs.Prelude.{◌≡◌, pos, Ok, Result};
ghost use Rattle.refusals.specs.declared.kind.KindFault.{KindFault};
ghost use Rattle.kinds.specs.Airtimes.{airtime_of};
ghost use Rattle.kinds.specs.Chances.{chance_made, chance_read};
ghost use Rattle.kinds.specs.Margins.{margin_of};

use crate::read::Readable;
use kinds::airtime::Airtime;
use kinds::chance::Chance;
use kinds::margin::Margin;
use refusals::kind::KindFault;

// No `TryFrom`: it also names what a word spells for the grade, and all have one error.
// A grade that is made singly. In a list a number may stand for the nearest grade there is; a single number for which there is no grade is
// refused.
pub trait Single: Copy {
    // What a word spells for the grade.
    type Spelt: Readable;

    ghost makes: { Self.Spelt → Result Self KindFault };

    ghost zero: { Self };

    fn single(spelt: Self::Spelt) -> Result<Self, KindFault>
        ensures { result ≡ makes spelt };

    // The grade that 0 spells.
    fn zero() -> Self
        ensures { result ≡ zero };
}

impl Single for Airtime {
    type Spelt = Airtime;

    ghost makes = { λ grade. Ok grade };

    ghost zero = { airtime_of 0 };

    fn single(spelt: Airtime) -> Result<Airtime, KindFault> {
        Ok(spelt)
    }

    fn zero() -> Airtime {
        Airtime::new(0)
    }
}

impl Single for Chance {
    type Spelt = u32;

    ghost makes = { chance_made };

    ghost zero = { chance_read 0 };

    fn single(spelt: u32) -> Result<Chance, KindFault> {
        Chance::new(spelt)
    }

    fn zero() -> Chance {
        Chance::read(0)
    }
}

impl Single for Margin {
    type Spelt = Margin;

    ghost makes = { λ grade. Ok grade };

    ghost zero = { margin_of (pos 0) };

    fn single(spelt: Margin) -> Result<Margin, KindFault> {
        Ok(spelt)
    }

    fn zero() -> Margin {
        Margin::new(0)
    }
}
