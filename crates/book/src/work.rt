// Pick after pick.
ghost use Rattle.std.specs.Prelude.{◌≡◌, length, IsOkAnd};
ghost use Rattle.net.specs.Table.{station_count, link_count};
ghost use Rattle.net.specs.View.{table_of};
ghost use Rattle.runs.specs.Calls.{Works};
ghost use Rattle.book.specs.Memories.{memory};
ghost use Rattle.book.specs.Working.{started_at};

use crate::scan::scan;
use kinds::kind::Kind;
use lists::list::CandidateList;
use net::star::Net;
use refusals::book::BookFault;

// Picks stations and goes through the links of each, until the allowance is spent or none waits. Tells how many it picked, and how many still wait.
pub(crate) fn work<K: Kind, L: CandidateList<K>>(
    net: &Net,
    gateway: u16,
    grades: &[K::Grade],
    labels: &mut [K::Label],
    entries: &mut [u16],
    list: &mut L,
    allowed: u16,
) -> Result<(u16, u16), BookFault>
    requires grades { length grades.now ≡ link_count (table_of net.now) }
    requires labels { length labels.old ≡ station_count (table_of net.now) }
    requires entries { length entries.old ≡ station_count (table_of net.now) }
    ensures { IsOkAnd result (λ told. Works K.Kind L.CandidateList (table_of net.now) (memory (started_at gateway) grades.now labels.old entries.old list.old) allowed told.0 told.1 (memory (started_at gateway) grades.now labels.new entries.new list.new)) }
{
    for made in 0..allowed {
        let Some(station) = list.pick(labels) else {
            return Ok((made, list.waiting()));
        };
        scan::<K, L>(net, gateway, grades, station, labels, entries, list)?;
    }
    Ok((allowed, list.waiting()))
}
