// Refusals of a net.
ghost use Rattle.refusals.specs.Tells.{net_tells};

use crate::told::{Fault, Layer, Told};

// Two lists that are no net.
#[derive(Clone, Copy, Debug, PartialEq, Eq)]
pub enum NetFault {
    // There is no start, or the stations are not 1 to 1,024.
    Stations,
    // There are more than 4,096 links.
    Links,
    // The starts do not begin at 0, fall, or do not end at the number of links.
    Starts,
    // The head of this link, the first such one, is not a station.
    Head(u16),
}

impl Fault for NetFault {
    ghost tells = { net_tells };

    // The numbers are those of the table of refusals, a line for each case.
    fn told(&self) -> Told {
        let (number, place) = match self {
            NetFault::Stations => (1, 0),
            NetFault::Links => (2, 0),
            NetFault::Starts => (3, 0),
            NetFault::Head(link) => (4, *link),
        };
        let layer = Layer::Net;
        Told {
            number,
            place,
            layer,
        }
    }
}
