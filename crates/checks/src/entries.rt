// The test of the stations by their entries: each labelled one but the gateway has just the label that a labelled tail carries over its entry link.
ghost use Rattle.std.specs.Prelude.{◌≡◌, ◌<◌, length, IfSome};
ghost use Rattle.net.specs.First.{first_below};
ghost use Rattle.net.specs.Judged.{judged};
ghost use Rattle.net.specs.Table.{station_count, link_count};
ghost use Rattle.net.specs.View.{table_of};
ghost use Rattle.walks.specs.Walk.{entry_at};
ghost use Rattle.plans.specs.Faults.{handed_by, entry_fault};
ghost use Rattle.plans.specs.Plan.{plan};
ghost use Rattle.plans.specs.Tests.{at_first};
ghost use Rattle.refusals.specs.declared.check.CheckFault.TheVariants as fault;

use crate::same::same;
use kinds::kind::Kind;
use net::star::Net;
use refusals::check::CheckFault;
use walks::before::all_before;
use walks::entry::{entry_of, labelled};

// Whether the label of a station comes from this tail, a labelled one, over the station's entry. There is no tail where the entry is no link into the station.
fn handed_by<K: Kind>(
    grades: &[K::Grade],
    labels: &[K::Label],
    entries: &[u16],
    tail: Option<u16>,
    station: u16,
) -> bool
    requires station { station < length labels.now }
    requires tail { IfSome tail (λ x. (x < length labels.now) × (entry_at entries.now station < length grades.now)) }
    ensures { result ≡ handed_by K.Kind grades.now (plan labels.now entries.now) tail station }
{
    let Some(tail) = tail else {
        return false;
    };
    if !labelled(entries, tail) {
        return false;
    }
    let link = entry_of(entries, station);
    let new = K::carry(labels[tail as usize], grades[link as usize]);
    same::<K>(new, labels[station as usize])
}

// Refuses the first labelled station, but the gateway, that has not.
pub(crate) fn test_entries<K: Kind>(
    net: &Net,
    grades: &[K::Grade],
    gateway: u16,
    labels: &[K::Label],
    entries: &[u16],
) -> Result<(), CheckFault>
    requires grades { length grades.now ≡ link_count (table_of net.now) }
    requires labels { length labels.now ≡ station_count (table_of net.now) }
    ensures { result ≡ judged (at_first fault.Entry (first_below (entry_fault K.Kind (table_of net.now) gateway grades.now (plan labels.now entries.now)) (station_count (table_of net.now))) None) }
{
    // A table, so that no tail is searched for.
    let tails = all_before(net, entries);
    for station in 0..net.stations() {
        if !labelled(entries, station) || station == gateway {
            continue;
        }
        let tail = tails[station as usize];
        if !handed_by::<K>(grades, labels, entries, tail, station) {
            return Err(CheckFault::Entry(station));
        }
    }
    Ok(())
}
