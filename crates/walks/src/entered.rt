// Which station's backward walk moves over a link.
ghost use Rattle.std.specs.Prelude.{ℕ, MatchOption};
ghost use Rattle.net.specs.View.{table_of};
ghost use Rattle.walks.specs.Walk.{MovesOver};

use crate::entry::entry_of;
use net::star::Net;

// The head of a link if the link is its entry: the one station from which the backward walk moves over the link.
pub(crate) fn entered(net: &Net, entries: &[u16], link: u16) -> Option<u16>
    ensures { MatchOption result ((v : ℕ) → ¬ MovesOver (table_of net.now) entries.now link v) (λ h. MovesOver (table_of net.now) entries.now link h) }
{
    net.head(link)
        .filter(|&head| entry_of(entries, head) == link)
}
