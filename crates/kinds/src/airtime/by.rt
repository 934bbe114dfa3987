// Airtime as a kind of grade.
ghost use Rattle.std.specs.Prelude.{◌≡◌, ◌+◌, Some, decimal};
ghost use Rattle.kinds.specs.Airtimes.{airtime_of, air_start, air_carry, air_at_least, air_rank};
ghost use Rattle.std.proofs.Common.{arith, rules};
ghost use Rattle.std.proofs.lemmas.Bool.{leb-true};
ghost use Rattle.kinds.specs.Same.{same-airtime};

use super::Airtime;
use crate::kind::Kind;
use std::fmt;

impl Airtime {
    // So many microseconds. No `From`: the name says what the number counts.
    pub fn new(micros: u32) -> Airtime
        ensures made { result ≡ airtime_of micros }
        ensures holds { result.micros ≡ micros }
    {
        Airtime { micros }
    }
}

// Less airtime is better: the airtimes of a path's links are added, and the sum stops at 4,294,967,295.
pub struct ByAirtime;

impl Kind for ByAirtime {
    type Label = Airtime;

    type Grade = Airtime;

    ghost start = { air_start };

    ghost carry = { air_carry };

    ghost at_least = { air_at_least };

    ghost rank = { air_rank };

    ghost lawful = { record {
      total = Prim.search rules;
      trans = Prim.search rules;
      antisym = λ x y p q. same-airtime x y (omega (arith, leb-true x.micros y.micros p, leb-true y.micros x.micros q));
      keeps = Prim.search rules;
      worsens = Prim.search rules;
      ranks = Prim.search rules;
      narrow = λ x. omega (arith, x.fits);
    } };

    fn start() -> Airtime {
        Airtime::new(0)
    }

    fn carry(label: Airtime, grade: Airtime) -> Airtime {
        Airtime::new(label.micros.saturating_add(grade.micros))
    }

    fn at_least_as_good(a: Airtime, b: Airtime) -> bool {
        a <= b
    }

    fn rank(label: Airtime) -> u32 {
        label.micros
    }
}

impl fmt::Display for Airtime {
    ghost output = { λ x. Some (decimal x.micros) };

    fn fmt<W: fmt::Write>(&self, f: &mut fmt::Formatter<W>) -> fmt::Result {
        fmt::Display::fmt(&self.micros, f)
    }
}
