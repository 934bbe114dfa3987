// Margin as a kind of grade.
ghost use Rattle.std.specs.Prelude.{◌≡◌, Some};
ghost use Rattle.std.specs.Fmt.{signed_decimal};
ghost use Rattle.kinds.specs.Margins.{margin_of, margin_start, margin_carry, margin_at_least, margin_rank};
ghost use Rattle.std.proofs.Common.{arith};
ghost use Rattle.std.proofs.lemmas.Int.{ints};
ghost use Rattle.kinds.specs.Same.{same-margin};

use super::Margin;
use crate::kind::Kind;
use std::fmt;

impl Margin {
    // So many decibels. No `From`, as for the airtime: the name says what the number counts.
    pub fn new(decibels: i8) -> Margin
        ensures made { result ≡ margin_of decibels }
        ensures holds { result.decibels ≡ decibels }
    {
        Margin { decibels }
    }
}

// A larger margin is better, and a path has that of its weakest link.
pub struct ByMargin;

impl Kind for ByMargin {
    type Label = Margin;

    type Grade = Margin;

    ghost start = { margin_start };

    ghost carry = { margin_carry };

    ghost at_least = { margin_at_least };

    ghost rank = { margin_rank };

    ghost lawful = { record {
      total = λ x y. Prim.grind (arith, ints);
      trans = λ x y z p q. Prim.grind (arith, ints);
      antisym = λ x y p q. same-margin x y (Prim.grind (arith, ints));
      keeps = λ x y g p. Prim.grind (arith, ints);
      worsens = λ x g. Prim.grind (arith, ints);
      ranks = λ x y p. Prim.grind (arith, ints);
      narrow = λ x. Prim.grind (arith, ints);
    } };

    fn start() -> Margin {
        Margin::new(127)
    }

    fn carry(label: Margin, grade: Margin) -> Margin {
        label.min(grade)
    }

    fn at_least_as_good(a: Margin, b: Margin) -> bool {
        b <= a
    }

    fn rank(label: Margin) -> u32 {
        // The cast loses nothing, which is proved; `TryFrom` would add a case that cannot come.
        (127 - i32::from(label.decibels)) as u32
    }
}

impl fmt::Display for Margin {
    ghost output = { λ x. Some (signed_decimal x.decibels) };

    fn fmt<W: fmt::Write>(&self, f: &mut fmt::Formatter<W>) -> fmt::Result {
        fmt::Display::fmt(&self.decibels, f)
    }
}
