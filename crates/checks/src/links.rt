// The test of the links: none from a labelled tail leads to a head that would take what it offers.
ghost use Rattle.std.specs.Prelude.{◌≡◌, ◌<◌, length};
ghost use Rattle.net.specs.First.{first_below};
ghost use Rattle.net.specs.Judged.{judged};
ghost use Rattle.net.specs.Table.{station_count, link_count};
ghost use Rattle.net.specs.View.{table_of};
ghost use Rattle.plans.specs.Faults.{link_fault};
ghost use Rattle.plans.specs.Offers.{welcomes};
ghost use Rattle.plans.specs.Plan.{plan};
ghost use Rattle.plans.specs.Tests.{at_first};
ghost use Rattle.refusals.specs.declared.check.CheckFault.TheVariants as fault;

use kinds::kind::Kind;
use kinds::order::better;
use net::star::Net;
use refusals::check::CheckFault;
use walks::entry::labelled;

// Whether a station takes this label: it has none yet, or a worse one.
fn welcomes<K: Kind>(labels: &[K::Label], entries: &[u16], station: u16, new: K::Label) -> bool
    requires { station < length labels.now }
    ensures { result ≡ welcomes K.Kind (plan labels.now entries.now) station new }
{
    !labelled(entries, station) || better::<K>(new, labels[station as usize])
}

// The first link over which a labelled tail offers a label that the head takes.
fn first_faulty_link<K: Kind>(
    net: &Net,
    grades: &[K::Grade],
    labels: &[K::Label],
    entries: &[u16],
) -> Option<u16>
    requires grades { length grades.now ≡ link_count (table_of net.now) }
    requires labels { length labels.now ≡ station_count (table_of net.now) }
    ensures { result ≡ first_below (link_fault K.Kind (table_of net.now) grades.now (plan labels.now entries.now)) (link_count (table_of net.now)) }
{
    let mut found = None;
    'stations: for tail in 0..net.stations() {
        // Each has its links.
        let Some(links) = net.links_of(tail) else {
            continue;
        };
        if !labelled(entries, tail) {
            continue;
        }
        let label = labels[tail as usize];
        for link in links {
            let head = net.heads()[link as usize];
            let new = K::carry(label, grades[link as usize]);
            if welcomes::<K>(labels, entries, head, new) {
                found = Some(link);
                break 'stations;
            }
        }
    }
    found
}

// Refuses the first of these links.
pub(crate) fn test_links<K: Kind>(
    net: &Net,
    grades: &[K::Grade],
    labels: &[K::Label],
    entries: &[u16],
) -> Result<(), CheckFault>
    requires grades { length grades.now ≡ link_count (table_of net.now) }
    requires labels { length labels.now ≡ station_count (table_of net.now) }
    ensures { result ≡ judged (at_first fault.Link (first_below (link_fault K.Kind (table_of net.now) grades.now (plan labels.now entries.now)) (link_count (table_of net.now))) None) }
{
    match first_faulty_link::<K>(net, grades, labels, entries) {
        Some(link) => Err(CheckFault::Link(link)),
        None => Ok(()),
    }
}
