// Refusals of a kind of grade.
ghost use Rattle.refusals.specs.Tells.{kind_tells};

use crate::told::{Fault, Layer, Told};

// A value that no kind of grade has.
#[derive(Clone, Copy, Debug, PartialEq, Eq)]
pub enum KindFault {
    // A chance of more than 65,536 parts.
    Chance,
}

impl Fault for KindFault {
    ghost tells = { kind_tells };

    // The numbers are those of the table of refusals, a line for each case.
    fn told(&self) -> Told {
        let number = match self {
            KindFault::Chance => 13,
        };
        Told {
            number,
            place: 0,
            layer: Layer::Kind,
        }
    }
}
