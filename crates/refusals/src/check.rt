// Refusals of the check.
ghost use Rattle.refusals.specs.Tells.{check_tells};

use crate::told::{Fault, Layer, Told};

// Why labels and entry links are no tree of best paths.
#[derive(Clone, Copy, Debug, PartialEq, Eq)]
pub enum CheckFault {
    // The grades are not one per link.
    Grades,
    // The labels or the entry links are not one per station.
    Stations,
    // The gateway is no station.
    NoStation,
    // The gateway lacks the start label or the gateway's own entry.
    Gateway,
    // This labelled station's entry is no link into it, or has an unlabelled tail, or does not carry the tail's label to the station's.
    Entry(u16),
    // The backward walk from this labelled station misses the gateway.
    Walk(u16),
    // This link, from a labelled tail, leads to an unlabelled head or would better its label.
    Link(u16),
}

impl Fault for CheckFault {
    ghost tells = { check_tells };

    // The numbers are those of the table of refusals, a line for each case.
    fn told(&self) -> Told {
        let (number, place) = match self {
            CheckFault::Grades => (5, 0),
            CheckFault::Stations => (6, 0),
            CheckFault::NoStation => (7, 0),
            CheckFault::Gateway => (16, 0),
            CheckFault::Entry(station) => (17, *station),
            CheckFault::Walk(station) => (18, *station),
            CheckFault::Link(link) => (19, *link),
        };
        let layer = Layer::Check;
        Told {
            number,
            place,
            layer,
        }
    }
}
