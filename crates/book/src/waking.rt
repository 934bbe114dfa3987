// Entering stations after a regrade. Indices are cast: `usize::from` at each is no plainer, and a step more in every proof.
ghost use Rattle.std.specs.Prelude.{◌≡◌, ◌<◌, [], ◌∷◌, if◌then◌else◌};
ghost use Rattle.std.specs.Result.{IsOkAnd};
ghost use Rattle.net.specs.Table.{station_count};
ghost use Rattle.net.specs.View.{table_of};
ghost use Rattle.walks.specs.Branches.{marked};
ghost use Rattle.walks.specs.Walk.{labelled};
ghost use Rattle.runs.specs.Regrade.{leads_to_lost, wakes, woken};
ghost use Rattle.book.specs.Entering.{Enters};

use kinds::kind::Kind;
use lists::list::{CandidateList, Entered};
use net::star::Net;
use refusals::book::BookFault;
use walks::branch::Branch;
use walks::entry::labelled;

// Enters a station. It tells how many did not wait: one or none.
fn enter<K: Kind, L: CandidateList<K>>(
    labels: &[K::Label],
    list: &mut L,
    station: u16,
) -> Result<u16, BookFault>
    requires { station < 1024 }
    ensures { IsOkAnd result (λ n. Enters L.CandidateList list.old (station ∷ []) labels.now n list.new) }
{
    Ok(match list.enter(station, labels)? {
        Entered::New => 1,
        Entered::Waiting => 0,
    })
}

// Enters a station if it has a label.
pub(crate) fn wake_one<K: Kind, L: CandidateList<K>>(
    labels: &[K::Label],
    entries: &[u16],
    list: &mut L,
    station: u16,
) -> Result<u16, BookFault>
    requires { station < 1024 }
    ensures { IsOkAnd result (λ n. Enters L.CandidateList list.old (if labelled entries.now station then station ∷ [] else []) labels.now n list.new) }
{
    if labelled(entries, station) {
        enter::<K, L>(labels, list, station)
    } else {
        Ok(0)
    }
}

// Whether a station has a link to a lost one.
fn leads_to_lost(net: &Net, lost: &Branch, station: u16) -> bool
    requires { station < station_count (table_of net.now) }
    ensures { result ≡ leads_to_lost (table_of net.now) (marked lost.now) station }
{
    let Some(links) = net.links_of(station) else {
        return false;
    };
    for link in links {
        if lost.has(net.heads()[link as usize]) {
            return true;
        }
    }
    false
}

// Whether a station is labelled and has a link to a lost one.
fn wakes(net: &Net, entries: &[u16], lost: &Branch, station: u16) -> bool
    requires { station < station_count (table_of net.now) }
    ensures { result ≡ wakes (table_of net.now) (marked lost.now) entries.now station }
{
    labelled(entries, station) && leads_to_lost(net, lost, station)
}

// Enters the labelled stations with a link to a lost one, in rising number.
pub(crate) fn wake<K: Kind, L: CandidateList<K>>(
    net: &Net,
    labels: &[K::Label],
    entries: &[u16],
    list: &mut L,
    lost: &Branch,
) -> Result<u16, BookFault>
    ensures { IsOkAnd result (λ n. Enters L.CandidateList list.old (woken (table_of net.now) (marked lost.now) entries.now (station_count (table_of net.now))) labels.now n list.new) }
{
    let mut new = 0;
    for station in 0..net.stations() {
        if wakes(net, entries, lost, station) {
            new += enter::<K, L>(labels, list, station)?;
        }
    }
    Ok(new)
}
