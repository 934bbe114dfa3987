// Chance as a kind of grade.
ghost use Rattle.std.specs.Prelude.{◌≡◌, ◌≤◌, Some, decimal, min};
ghost use Rattle.kinds.specs.Chances.{chance_start, chance_carry, chance_at_least, chance_rank, chance_read, chance_made};
ghost use Rattle.std.proofs.Common.{arith, rules};
ghost use Rattle.std.proofs.lemmas.Bool.{leb-true, le-leb};
ghost use Rattle.kinds.specs.Products.{product-keeps, product-worsens};
ghost use Rattle.kinds.specs.Same.{same-chance};

use super::Chance;
use crate::kind::Kind;
use refusals::kind::KindFault;
use std::fmt;

impl Chance {
    // The chance that a number in a list stands for: a number above 65,536 reads as 65,536.
    pub fn read(number: u32) -> Chance
        ensures made { result ≡ chance_read number }
        ensures holds { result.parts ≡ min number 65536 }
    {
        Chance {
            parts: number.min(65536),
        }
    }

    // One chance from its parts; a number above 65,536 is refused. No `TryFrom`: a number becomes a chance in two ways, cut or refused, and the names tell them apart.
    pub fn new(number: u32) -> Result<Chance, KindFault>
        ensures { result ≡ chance_made number }
    {
        if number > 65536 {
            return Err(KindFault::Chance);
        }
        Ok(Chance::read(number))
    }
}

// A larger chance is better: the chances of a path's links are multiplied, link by link, and rounded down.
pub struct ByChance;

impl Kind for ByChance {
    type Label = Chance;

    type Grade = Chance;

    ghost start = { chance_start };

    ghost carry = { chance_carry };

    ghost at_least = { chance_at_least };

    ghost rank = { chance_rank };

    ghost lawful = { record {
      total = Prim.search rules;
      trans = Prim.search rules;
      antisym = λ x y p q. same-chance x y (omega (arith, leb-true x.parts y.parts q, leb-true y.parts x.parts p));
      keeps = λ x y g p. le-leb _ _ (product-keeps x.parts y.parts g.parts (leb-true y.parts x.parts p));
      worsens = λ x g. le-leb _ _ (product-worsens x.parts g.parts g.most);
      ranks = Prim.search rules;
      narrow = λ x. omega (arith, x.most);
    } };

    fn start() -> Chance {
        Chance::read(65536)
    }

    fn carry(label: Chance, grade: Chance) -> Chance {
        // The cast loses nothing, which is proved; `TryFrom` would add a case that cannot come.
        Chance {
            parts: (u64::from(label.parts) * u64::from(grade.parts) / 65536) as u32,
        }
    }

    fn at_least_as_good(a: Chance, b: Chance) -> bool {
        b <= a
    }

    fn rank(label: Chance) -> u32 {
        65536 - label.parts
    }
}

impl fmt::Display for Chance {
    ghost output = { λ x. Some (decimal x.parts) };

    fn fmt<W: fmt::Write>(&self, f: &mut fmt::Formatter<W>) -> fmt::Result {
        fmt::Display::fmt(&self.parts, f)
    }
}
