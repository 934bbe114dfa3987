// Refusals of all layers in one.
ghost use Rattle.std.specs.Prelude.{◌≡◌};
ghost use Rattle.refusals.specs.declared.refusal.Refusal.TheVariants.{OfNet, OfKind, OfList, OfBook, OfCheck};
ghost use Rattle.refusals.specs.Tells.{refusal_tells};

use crate::book::BookFault;
use crate::check::CheckFault;
use crate::kind::KindFault;
use crate::list::ListFault;
use crate::net::NetFault;
use crate::told::{Fault, Told};

// A refusal of any layer, for callers of several.
#[derive(Clone, Copy, Debug, PartialEq, Eq)]
pub enum Refusal {
    OfNet(NetFault),
    OfKind(KindFault),
    OfList(ListFault),
    OfBook(BookFault),
    OfCheck(CheckFault),
}

impl Fault for Refusal {
    ghost tells = { refusal_tells };

    fn told(&self) -> Told {
        match self {
            Refusal::OfNet(fault) => fault.told(),
            Refusal::OfKind(fault) => fault.told(),
            Refusal::OfList(fault) => fault.told(),
            Refusal::OfBook(fault) => fault.told(),
            Refusal::OfCheck(fault) => fault.told(),
        }
    }
}

// These are written out, since callers' clauses name the error that `?` makes: a derived `From` has no `from_gives`.
impl From<NetFault> for Refusal {
    ghost from_gives = { λ e r. r ≡ OfNet e };

    fn from(fault: NetFault) -> Refusal {
        Refusal::OfNet(fault)
    }
}

impl From<KindFault> for Refusal {
    ghost from_gives = { λ e r. r ≡ OfKind e };

    fn from(fault: KindFault) -> Refusal {
        Refusal::OfKind(fault)
    }
}

impl From<ListFault> for Refusal {
    ghost from_gives = { λ e r. r ≡ OfList e };

    fn from(fault: ListFault) -> Refusal {
        Refusal::OfList(fault)
    }
}

impl From<BookFault> for Refusal {
    ghost from_gives = { λ e r. r ≡ OfBook e };

    fn from(fault: BookFault) -> Refusal {
        Refusal::OfBook(fault)
    }
}

impl From<CheckFault> for Refusal {
    ghost from_gives = { λ e r. r ≡ OfCheck e };

    fn from(fault: CheckFault) -> Refusal {
        Refusal::OfCheck(fault)
    }
}
