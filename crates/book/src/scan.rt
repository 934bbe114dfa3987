// The links of a station that the candidate list answered.
ghost use Rattle.std.specs.Prelude.{◌≡◌, ◌<◌, length, Ok};
ghost use Rattle.net.specs.Table.{station_count, link_count};
ghost use Rattle.net.specs.View.{table_of};
ghost use Rattle.runs.specs.Acts.{Acts};
ghost use Rattle.plans.specs.Offers.{welcomes};
ghost use Rattle.plans.specs.Plan.{plan};
ghost use Rattle.runs.specs.Scan.{after_pick, pick_acts};
ghost use Rattle.book.specs.Offers.{after_offer, offer_acts};

use kinds::kind::Kind;
use lists::list::CandidateList;
use net::star::Net;
use refusals::book::BookFault;
use walks::entry::UNLABELLED;

// Whether a station takes this label: it has none yet, or a worse one.
fn welcomes<K: Kind>(labels: &[K::Label], entries: &[u16], station: usize, new: K::Label) -> bool
    requires labels { station < length labels.now }
    requires entries { station < length entries.now }
    ensures { result ≡ welcomes K.Kind (plan labels.now entries.now) station new }
{
    entries[station] == UNLABELLED || !K::at_least_as_good(labels[station], new)
}

// Offers a station this label by a link that leads to it. If it takes the label, it enters.
fn offer<K: Kind, L: CandidateList<K>>(
    station: u16,
    new: K::Label,
    link: u16,
    labels: &mut [K::Label],
    entries: &mut [u16],
    list: &mut L,
) -> Result<(), BookFault>
    requires below { station < 1024 }
    requires labels { station < length labels.old }
    requires entries { station < length entries.old }
    ensures plan { plan labels.new entries.new ≡ after_offer K.Kind (plan labels.old entries.old) station new link }
    ensures list { Acts L.CandidateList list.old (offer_acts K.Kind (plan labels.old entries.old) station new link) list.new }
    ensures always { result ≡ Ok tt }
{
    let at = station as usize;
    if welcomes::<K>(labels, entries, at, new) {
        labels[at] = new;
        entries[at] = link;
        // No refusal comes, since the station is below 1,024.
        list.enter(station, labels)?;
    }
    Ok(())
}

// Goes through the links of a station that the list answered, in their order. For one that is unlabelled, or not in the net, it does nothing.
pub(crate) fn scan<K: Kind, L: CandidateList<K>>(
    net: &Net,
    gateway: u16,
    grades: &[K::Grade],
    station: u16,
    labels: &mut [K::Label],
    entries: &mut [u16],
    list: &mut L,
) -> Result<(), BookFault>
    requires grades { length grades.now ≡ link_count (table_of net.now) }
    requires labels { length labels.old ≡ station_count (table_of net.now) }
    requires entries { length entries.old ≡ station_count (table_of net.now) }
    ensures plan { plan labels.new entries.new ≡ after_pick K.Kind (table_of net.now) gateway grades.now (plan labels.old entries.old) station }
    ensures list { Acts L.CandidateList list.old (pick_acts K.Kind (table_of net.now) gateway grades.now (plan labels.old entries.old) station) list.new }
    ensures always { result ≡ Ok tt }
{
    let Some(links) = net.links_of(station) else {
        return Ok(());
    };
    let at = station as usize;
    if entries[at] == UNLABELLED {
        return Ok(());
    }
    // Read once: a link from the station to itself cannot improve its label.
    let label = labels[at];
    for link in links {
        let head = net.heads()[link as usize];
        if head == gateway {
            continue;
        }
        let new = K::carry(label, grades[link as usize]);
        offer::<K, L>(head, new, link, labels, entries, list)?;
    }
    Ok(())
}
