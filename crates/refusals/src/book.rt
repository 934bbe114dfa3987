// Refusals of a book.
ghost use Rattle.std.specs.Prelude.{◌≡◌};
ghost use Rattle.refusals.specs.declared.book.BookFault.TheVariants.{InList};
ghost use Rattle.refusals.specs.Tells.{book_tells};

use crate::list::ListFault;
use crate::told::{Fault, Layer, Told};

// What the calls of a book refuse.
#[derive(Clone, Copy, Debug, PartialEq, Eq)]
pub enum BookFault {
    // The grades are not one per link.
    Grades,
    // The labels or the entry links are not one per station.
    Stations,
    // There is no such station.
    NoStation,
    // The book was not started.
    NotStarted,
    // There is no such link.
    NoLink,
    // The station has no label.
    Unlabelled,
    // The backward walk from the station does not stop at the gateway with the gateway's own entry.
    Astray,
    // The memory for a route is too short: so many links are needed.
    Short(u16),
    // A refusal of the candidate list.
    InList(ListFault),
}

impl Fault for BookFault {
    ghost tells = { book_tells };

    // The numbers are those of the table of refusals, a line for each case.
    fn told(&self) -> Told {
        let (number, place) = match self {
            BookFault::Grades => (5, 0),
            BookFault::Stations => (6, 0),
            BookFault::NoStation => (7, 0),
            BookFault::NotStarted => (8, 0),
            BookFault::NoLink => (9, 0),
            BookFault::Unlabelled => (10, 0),
            BookFault::Astray => (11, 0),
            BookFault::Short(needed) => (12, *needed),
            BookFault::InList(fault) => return fault.told(),
        };
        let layer = Layer::Book;
        Told {
            number,
            place,
            layer,
        }
    }
}

// This is written out, since callers' clauses name the error that `?` makes: a derived `From` has no `from_gives`.
impl From<ListFault> for BookFault {
    ghost from_gives = { λ e r. r ≡ InList e };

    fn from(fault: ListFault) -> BookFault {
        BookFault::InList(fault)
    }
}
