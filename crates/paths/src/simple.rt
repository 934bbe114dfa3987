// Simple paths. Indices are cast: `usize::from` at each is no plainer, and a step more in every proof.
ghost use Rattle.std.specs.Prelude.{◌<◌, ◌↔◌, length, IsTrue, MatchOption, slice_index};
ghost use Rattle.net.specs.Table.{Leaves};
ghost use Rattle.net.specs.View.{table_of};
ghost use Rattle.paths.specs.Simple.{Simple, Listed};

use super::leaves::leaves;
use net::star::Net;

// Where the way begins if it is a path with a link: at the tail of its first one.
// That the listing of simple paths is right follows from the net's invariant alone, and is stated here once for both answers of `is_simple`.
fn beginning(net: &Net, way: &[u16]) -> Option<u16>
    ensures begins { MatchOption result (¬ Simple (table_of net.now) way.now) (λ a. (0 < length way.now) × Leaves (table_of net.now) (slice_index way.now 0) a) }
    ensures listed { Listed (table_of net.now) }
{
    net.tail(*way.first()?)
}

// Whether the way leads on from there, each link to a station that it has not met.
fn leads_on(net: &Net, way: &[u16], from: u16) -> bool
    requires some { 0 < length way.now }
    requires begins { Leaves (table_of net.now) (slice_index way.now 0) from }
    ensures { IsTrue result ↔ (Simple (table_of net.now) way.now) }
{
    // A mark for each station that a net can have, on the stack: no heap.
    let mut met = [false; 1024];
    met[from as usize] = true;
    let mut at = from;
    for &link in way {
        let Some(head) = net.head(link) else {
            return false;
        };
        if !leaves(net, link, at) || met[head as usize] {
            return false;
        }
        met[head as usize] = true;
        at = head;
    }
    true
}

// Whether a list of links is a simple path: at least one link, and no station twice. It may begin at any station.
pub fn is_simple(net: &Net, way: &[u16]) -> bool
    ensures simple { IsTrue result ↔ (Simple (table_of net.now) way.now) }
    ensures listed { Listed (table_of net.now) }
{
    // A `match`: a closure for `is_some_and` would have to repeat the contract of `leads_on`.
    match beginning(net, way) {
        Some(from) => leads_on(net, way, from),
        None => false,
    }
}
