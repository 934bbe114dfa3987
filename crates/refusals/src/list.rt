// Refusals of a candidate list.
ghost use Rattle.refusals.specs.Tells.{list_tells};

use crate::told::{Fault, Layer, Told};

// What a candidate list, which holds the stations that wait for their links to be gone through, does not take.
#[derive(Clone, Copy, Debug, PartialEq, Eq)]
pub enum ListFault {
    // A station of 1,024 or more enters.
    Station,
    // Buckets of width 0, or more than 64 of them.
    Buckets,
}

impl Fault for ListFault {
    ghost tells = { list_tells };

    // The numbers are those of the table of refusals, a line for each case.
    fn told(&self) -> Told {
        let number = match self {
            ListFault::Station => 14,
            ListFault::Buckets => 15,
        };
        Told {
            number,
            place: 0,
            layer: Layer::List,
        }
    }
}
