// Whether a station that a call names is one of the net.
ghost use Rattle.std.specs.Prelude.{nat_lt};
ghost use Rattle.net.specs.Table.{station_count};
ghost use Rattle.net.specs.View.{table_of};
ghost use Rattle.refusals.specs.declared.book.BookFault.TheVariants as fault;
ghost use Rattle.book.specs.Tested.{Tested};

use net::star::Net;
use refusals::book::BookFault;

// The net has this station.
pub(crate) fn in_net(net: &Net, station: u16) -> Result<(), BookFault>
    ensures { Tested result fault.NoStation (nat_lt station (station_count (table_of net.now))) }
{
    if station >= net.stations() {
        return Err(BookFault::NoStation);
    }
    Ok(())
}
