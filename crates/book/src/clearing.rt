// Clearing labels and entries. Indices are cast: `usize::from` at each is no plainer, and a step more in every proof.
ghost use Rattle.std.specs.Prelude.{◌≡◌, ◌<◌, length, replicate, slice_set};
ghost use Rattle.net.specs.Table.{station_count};
ghost use Rattle.net.specs.View.{table_of};
ghost use Rattle.plans.specs.Plan.{plan};
ghost use Rattle.runs.specs.Regrade.{without};
ghost use Rattle.walks.specs.Branches.{marked};
ghost use Rattle.walks.specs.Walk.{unlabelled, own};

use kinds::kind::Kind;
use net::star::Net;
use walks::branch::Branch;
use walks::entry::{OWN, UNLABELLED};

// A loop: a `Copy` label need not have a `clone`, which `fill` calls, that cannot fail.
fn fill_labels<L: Copy>(labels: &mut [L], label: L)
    ensures { labels.new ≡ replicate (length labels.old) label }
{
    for place in labels.iter_mut() {
        *place = label;
    }
}

// The first plan: every station has the start label and no entry but the gateway's own.
pub(crate) fn begin<K: Kind>(labels: &mut [K::Label], entries: &mut [u16], gateway: u16)
    requires { gateway < length entries.old }
    ensures labels { labels.new ≡ replicate (length labels.old) K.start }
    ensures entries { entries.new ≡ slice_set (replicate (length entries.old) unlabelled) gateway own }
{
    fill_labels(labels, K::start());
    entries.fill(UNLABELLED);
    entries[gateway as usize] = OWN;
}

// Takes label and entry from the lost stations.
pub(crate) fn clear<K: Kind>(net: &Net, labels: &mut [K::Label], entries: &mut [u16], lost: &Branch)
    requires labels { length labels.old ≡ station_count (table_of net.now) }
    requires entries { length entries.old ≡ station_count (table_of net.now) }
    ensures { plan labels.new entries.new ≡ without K.Kind (marked lost.now) (station_count (table_of net.now)) (plan labels.old entries.old) }
{
    for station in 0..net.stations() {
        if lost.has(station) {
            labels[station as usize] = K::start();
            entries[station as usize] = UNLABELLED;
        }
    }
}
