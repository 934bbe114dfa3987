// Whether lists that are handed over have the lengths that a net asks for.
ghost use Rattle.std.specs.Prelude.{◌≡◌, ◌&&◌, ◌==◌};
ghost use Rattle.net.specs.Table.{station_count, link_count};
ghost use Rattle.net.specs.View.{table_of};

use net::star::Net;

// One grade per link.
pub fn graded(net: &Net, grades: usize) -> bool
    ensures { result ≡ (grades == link_count (table_of net.now)) }
{
    grades == usize::from(net.links())
}

// One label and one entry per station.
pub fn sized(net: &Net, labels: usize, entries: usize) -> bool
    ensures { result ≡ (labels == station_count (table_of net.now) && entries == station_count (table_of net.now)) }
{
    let stations = usize::from(net.stations());
    labels == stations && entries == stations
}
