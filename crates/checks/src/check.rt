// The check.
ghost use Rattle.std.specs.Prelude.{◌≡◌, ◌↔◌, IsOk};
ghost use Rattle.net.specs.Judged.{judged};
ghost use Rattle.net.specs.View.{table_of};
ghost use Rattle.plans.specs.Best.{BestTree};
ghost use Rattle.plans.specs.Faults.{first_fault};
ghost use Rattle.plans.specs.Plan.{plan};

use crate::entries::test_entries;
use crate::fit::test_fit;
use crate::gateway::test_gateway;
use crate::links::test_links;
use crate::walking::test_walks;
use kinds::kind::Kind;
use net::star::Net;
use refusals::check::CheckFault;

// Whether labels and entries are a tree of best paths from this gateway. It stops at the first fault and tells it; nothing is written.
// The links are gone over three times at most: where walks move, out from the gateway, and what each offers. The grade of an entry link is read once more.
pub fn check<K: Kind>(
    net: &Net,
    grades: &[K::Grade],
    gateway: u16,
    labels: &[K::Label],
    entries: &[u16],
) -> Result<(), CheckFault>
    ensures finds { result ≡ judged (first_fault K.Kind (table_of net.now) gateway grades.now (plan labels.now entries.now)) }
    ensures accepts { IsOk result ↔ BestTree K.Kind (table_of net.now) gateway grades.now (plan labels.now entries.now) }
{
    test_fit(net, grades.len(), labels.len(), entries.len(), gateway)?;
    test_gateway::<K>(gateway, labels, entries)?;
    test_entries::<K>(net, grades, gateway, labels, entries)?;
    test_walks(net, gateway, entries)?;
    test_links::<K>(net, grades, labels, entries)
}
