// The tail of a link. Casts lose nothing, which is proved; `TryFrom` would add a case that cannot come.
ghost use Rattle.std.specs.Prelude.{◌≡◌, ◌<◌, ◌≤◌, MatchOption};
ghost use Rattle.net.specs.Table.{link_count, tail_at, tail_of, Leaves};
ghost use Rattle.net.specs.View.{table_of};

use super::Net;

impl Net<'_> {
    // The station that has this link.
    fn search(&self, link: u16) -> u16
        requires { link < link_count (table_of self.now) }
        ensures lies { Leaves (table_of self.now) link result }
        ensures is { result ≡ tail_at (table_of self.now) link }
    {
        self.starts[1..].partition_point(|start| *start <= link) as u16
    }

    // The station that a link leaves, or none where there is no such link.
    pub fn tail(&self, link: u16) -> Option<u16>
        ensures lies { MatchOption result (link_count (table_of self.now) ≤ link) (λ t. Leaves (table_of self.now) link t) }
        ensures is { result ≡ tail_of (table_of self.now) link }
    {
        // An `if`: a closure for `then` would have to repeat the contract of `search`.
        if link < self.links() {
            Some(self.search(link))
        } else {
            None
        }
    }
}
