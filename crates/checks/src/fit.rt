// The first test of the check: the lists fit the net, and so does the gateway.
ghost use Rattle.std.specs.Prelude.{◌≡◌, ◌&&◌, ◌==◌, nat_lt};
ghost use Rattle.net.specs.Judged.{judged};
ghost use Rattle.net.specs.Table.{station_count, link_count};
ghost use Rattle.net.specs.View.{table_of};
ghost use Rattle.plans.specs.Tests.{unless};
ghost use Rattle.refusals.specs.declared.check.CheckFault.TheVariants as fault;

use net::star::Net;
use plans::fits::{graded, sized};
use refusals::check::CheckFault;

// Refuses lists other than one grade per link, and one label and one entry per station; and a gateway that is no station.
pub(crate) fn test_fit(
    net: &Net,
    grade_count: usize,
    label_count: usize,
    entry_count: usize,
    gateway: u16,
) -> Result<(), CheckFault>
    ensures { result ≡ judged (unless (grade_count == link_count (table_of net.now)) fault.Grades (unless (label_count == station_count (table_of net.now) && entry_count == station_count (table_of net.now)) fault.Stations (unless (nat_lt gateway (station_count (table_of net.now))) fault.NoStation None))) }
{
    if !graded(net, grade_count) {
        return Err(CheckFault::Grades);
    }
    if !sized(net, label_count, entry_count) {
        return Err(CheckFault::Stations);
    }
    if gateway >= net.stations() {
        return Err(CheckFault::NoStation);
    }
    Ok(())
}
