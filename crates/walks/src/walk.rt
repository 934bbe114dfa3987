// The backward walk from a station.
ghost use Rattle.std.specs.Prelude.{◌≡◌, length, take, drop};
ghost use Rattle.net.specs.Table.{station_count};
ghost use Rattle.net.specs.View.{table_of};
ghost use Rattle.walks.specs.Walk.{before, walk, walk_end};

use crate::entry::entry_of;
use net::star::Net;

// How far a backward walk goes: how many links it meets, and to which station it comes.
#[derive(Clone, Copy, Debug, PartialEq, Eq)]
pub struct Walk {
    pub links: u16,
    pub end: u16,
}

// The station to which the walk moves from this one, or none where it stops.
fn step(net: &Net, entries: &[u16], station: u16) -> Option<u16>
    ensures { result ≡ before (table_of net.now) entries.now station }
{
    let link = entry_of(entries, station);
    if net.head(link)? != station {
        return None;
    }
    net.tail(link)
}

// Walks back from a station by entry links, in at most as many moves as there are stations. The links stand in the first places of `way`, the last link of the way first.
pub fn walk_back(net: &Net, entries: &[u16], station: u16, way: &mut [u16; 1024]) -> Walk
    ensures many { result.links ≡ length (walk (table_of net.now) entries.now (station_count (table_of net.now)) station) }
    ensures links { take result.links way.new ≡ walk (table_of net.now) entries.now (station_count (table_of net.now)) station }
    ensures rest { drop result.links way.new ≡ drop result.links way.old }
    ensures end { result.end ≡ walk_end (table_of net.now) entries.now (station_count (table_of net.now)) station }
{
    let mut at = station;
    for links in 0..net.stations() {
        let Some(tail) = step(net, entries, at) else {
            return Walk { links, end: at };
        };
        way[links as usize] = entry_of(entries, at);
        at = tail;
    }
    Walk {
        links: net.stations(),
        end: at,
    }
}
