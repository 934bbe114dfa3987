// From each station, the station to which its backward walk moves.
ghost use Rattle.std.specs.Prelude.{◌≡◌, ℕ, slice_index_or};
ghost use Rattle.net.specs.View.{table_of};
ghost use Rattle.walks.specs.Walk.{before};

use crate::entered::entered;
use net::star::Net;

// For each station, the one to which its backward walk moves: the tail of its entry, where that is a link into it.
// Each link is looked at once, from its tail, so that no tail is searched for.
pub fn all_before(net: &Net, entries: &[u16]) -> [Option<u16>; 1024]
    ensures { (v : ℕ) → slice_index_or result v None ≡ before (table_of net.now) entries.now v }
{
    let mut before = [None; 1024];
    for tail in 0..net.stations() {
        // Each has its links.
        let Some(links) = net.links_of(tail) else {
            continue;
        };
        for link in links {
            if let Some(head) = entered(net, entries, link) {
                before[head as usize] = Some(tail);
            }
        }
    }
    before
}
