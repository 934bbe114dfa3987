// Opening a site.
ghost use Rattle.std.specs.Prelude.{◌≡◌};
ghost use Rattle.net.specs.Table.{table};
ghost use Rattle.site.specs.declared.plot.acts.NotOpened.TheVariants.{Refused, Memory};
ghost use Rattle.site.specs.Plots.{Opens};

use super::Site;
use crate::held::AnyHolding;
use answers::verb::KindName;
use net::star::Net;
use refusals::net::NetFault;
use std::alloc::{AllocError, Global};

// Why no site was opened.
#[derive(Clone, Copy, Debug, PartialEq, Eq)]
pub enum NotOpened {
    // The two lists are no net.
    Refused(NetFault),
    // There is not enough memory.
    Memory,
}

// These are written out, since `Opens` names the error that `?` makes: a derived `From` has no `from_gives`.
impl From<NetFault> for NotOpened {
    ghost from_gives = { λ e r. r ≡ Refused e };

    fn from(fault: NetFault) -> NotOpened {
        NotOpened::Refused(fault)
    }
}

impl From<AllocError> for NotOpened {
    ghost from_gives = { λ _ r. r ≡ Memory };

    fn from(_error: AllocError) -> NotOpened {
        NotOpened::Memory
    }
}

impl Site {
    // A site over the net of two lists, in airtimes.
    pub(crate) fn open(heap: Global, starts: Vec<u16>, heads: Vec<u16>) -> Result<Site, NotOpened>
        ensures { Opens (table starts.items heads.items) result }
    {
        let mut net = Net::single();
        net.fill(starts.as_slice(), heads.as_slice())?;
        let held = AnyHolding::new(heap, KindName::Airtime, &net)?;
        Ok(Site {
            starts,
            heads,
            held,
        })
    }
}
