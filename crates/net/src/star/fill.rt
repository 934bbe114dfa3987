// Filling a net: which lists are one, and which refusal the others meet. Casts lose nothing, which is proved; `TryFrom` would add a case that cannot come.
ghost use Rattle.std.specs.Prelude.{◌≡◌, ◌-◌, ◌≤◌, length, is_some, MatchResult};
ghost use Rattle.net.specs.First.{first_below};
ghost use Rattle.net.specs.Table.{table, ForwardStar};
ghost use Rattle.net.specs.Judged.{falls, misled, stray, net_fault, judged};

use super::Net;
use refusals::net::NetFault;

// Whether some start is above the next.
fn falling(starts: &[u16]) -> bool
    ensures { result ≡ is_some (first_below (falls starts.now) (length starts.now - 1)) }
{
    !starts.is_sorted()
}

// Whether the starts do not begin at 0, fall, or do not end at the number of links.
fn off_course(starts: &[u16], links: usize) -> bool
    requires { 1 ≤ length starts.now }
    ensures { result ≡ misled starts.now links }
{
    starts[0] != 0 || falling(starts) || usize::from(starts[starts.len() - 1]) != links
}

// The first link whose head is no station.
fn first_stray(stations: usize, heads: &[u16]) -> Option<u16>
    requires { length heads.now ≤ 4096 }
    ensures { result ≡ first_below (stray stations heads.now) (length heads.now) }
{
    let l = heads
        .iter()
        .position(|head| usize::from(*head) >= stations)?;
    Some(l as u16)
}

// Why two lists are no net.
fn tested(starts: &[u16], heads: &[u16]) -> Result<(), NetFault>
    ensures { result ≡ judged (net_fault (table starts.now heads.now)) }
{
    if starts.len() < 2 || starts.len() > 1025 {
        return Err(NetFault::Stations);
    }
    if heads.len() > 4096 {
        return Err(NetFault::Links);
    }
    if off_course(starts, heads.len()) {
        return Err(NetFault::Starts);
    }
    // A `match`: `map_or` with two results is no plainer.
    match first_stray(starts.len() - 1, heads) {
        Some(link) => Err(NetFault::Head(link)),
        None => Ok(()),
    }
}

impl<'a> Net<'a> {
    // Makes this net the view of the two lists. Where they are no net, it says why and stays as it was.
    pub fn fill(&mut self, starts: &'a [u16], heads: &'a [u16]) -> Result<(), NetFault>
        ensures told { result ≡ judged (net_fault (table starts.now heads.now)) }
        ensures lawful { MatchResult result (λ _. ForwardStar (table starts.now heads.now)) (λ _. ¬ ForwardStar (table starts.now heads.now)) }
        ensures view { MatchResult result (λ _. (self.new.starts ≡ starts.entry) × (self.new.heads ≡ heads.entry)) (λ _. self.new ≡ self.old) }
    {
        tested(starts, heads)?;
        *self = Net { starts, heads };
        Ok(())
    }
}
