// The test of the stations by their walks: from each labelled one the backward walk meets the gateway.
ghost use Rattle.std.specs.Prelude.{◌≡◌};
ghost use Rattle.net.specs.First.{first_below};
ghost use Rattle.net.specs.Judged.{judged};
ghost use Rattle.net.specs.Table.{station_count};
ghost use Rattle.net.specs.View.{table_of};
ghost use Rattle.plans.specs.Faults.{walk_fault};
ghost use Rattle.plans.specs.Tests.{at_first};
ghost use Rattle.refusals.specs.declared.check.CheckFault.TheVariants as fault;

use net::star::Net;
use refusals::check::CheckFault;
use walks::branch::search::branch;
use walks::entry::labelled;

// Refuses the first labelled station whose backward walk misses the gateway. One search finds all the others, in place of a walk from each.
pub(crate) fn test_walks(net: &Net, gateway: u16, entries: &[u16]) -> Result<(), CheckFault>
    ensures { result ≡ judged (at_first fault.Walk (first_below (walk_fault (table_of net.now) gateway entries.now) (station_count (table_of net.now))) None) }
{
    let home = branch(net, entries, gateway);
    for station in 0..net.stations() {
        if labelled(entries, station) && !home.has(station) {
            return Err(CheckFault::Walk(station));
        }
    }
    Ok(())
}
