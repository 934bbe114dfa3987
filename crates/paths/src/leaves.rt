// Whether a link leaves a station.
ghost use Rattle.std.specs.Prelude.{◌≡◌, ◌<◌, ◌==◌};
ghost use Rattle.net.specs.Table.{link_count, tail_at};
ghost use Rattle.net.specs.View.{table_of};

use net::star::Net;

// Whether a link leaves this station.
pub(crate) fn leaves(net: &Net, link: u16, station: u16) -> bool
    requires { link < link_count (table_of net.now) }
    ensures { result ≡ (tail_at (table_of net.now) link == station) }
{
    net.links_of(station).is_some_and(|own| own.contains(&link))
}
