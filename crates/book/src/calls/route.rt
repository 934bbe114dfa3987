// The route to a station. Indices are cast: `usize::from` at each is no plainer, and a step more in every proof.
ghost use Rattle.std.specs.Prelude.{◌≡◌, ◌≤◌, ◌&&◌, ◌++◌, ◌==◌, length, take, drop, reverse, nat_le, ℕ, [], Some, None, IfOk, MatchResult};
ghost use Rattle.net.specs.View.{table_of};
ghost use Rattle.refusals.specs.declared.book.BookFault.TheVariants as fault;
ghost use Rattle.runs.specs.Calls.{refusal, Does};
ghost use Rattle.runs.specs.Calls as calls;
ghost use Rattle.runs.specs.Law.{KeepsLaw};
ghost use Rattle.walks.specs.Walk.{own, entry_at, labelled, entry_path};
ghost use Rattle.book.specs.Memories.{memory, seen, route_told};
ghost use Rattle.book.specs.Tested.{Tested};

use crate::book::Book;
use kinds::kind::Kind;
use lists::list::CandidateList;
use net::star::Net;
use refusals::book::BookFault;
use walks::entry::{OWN, entry_of, labelled};
use walks::walk::walk_back;

// The station has a label.
fn reached(entries: &[u16], station: u16) -> Result<(), BookFault>
    ensures { Tested result fault.Unlabelled (labelled entries.now station) }
{
    if !labelled(entries, station) {
        return Err(BookFault::Unlabelled);
    }
    Ok(())
}

// There is a place for each link.
fn fitting(links: u16, places: usize) -> Result<(), BookFault>
    ensures { Tested result (fault.Short links) (nat_le links places) }
{
    if usize::from(links) > places {
        return Err(BookFault::Short(links));
    }
    Ok(())
}

// Writes the first links of the way into the first places, the last of them first.
fn turn(places: &mut [u16], way: &mut [u16], links: u16)
    requires way { links ≤ length way.old }
    requires places { links ≤ length places.old }
    ensures { places.new ≡ reverse (take links way.old) ++ drop links places.old }
{
    let path = &mut way[..links as usize];
    path.reverse();
    places[..links as usize].copy_from_slice(path);
}

impl Book {
    // A walk that stopped at this station came to the gateway, which has its own entry.
    fn home(&self, entries: &[u16], end: u16) -> Result<(), BookFault>
        ensures { Tested result fault.Astray (end == self.now.gateway && entry_at entries.now self.now.gateway == own) }
    {
        if end != self.gateway || entry_of(entries, self.gateway) != OWN {
            return Err(BookFault::Astray);
        }
        Ok(())
    }

    // The tests of a route, in their order, with the walk back in `way`: how many links it has. They look neither at the grades nor at the list.
    fn may_route<L: Copy>(
        &self,
        net: &Net,
        labels: &[L],
        entries: &[u16],
        station: u16,
        places: usize,
        way: &mut [u16; 1024],
    ) -> Result<u16, BookFault>
        ensures judged { let r = refusal {G = ℕ} (table_of net.now) (seen self.now [] labels.now entries.now) (calls.route station places) in MatchResult result (λ _. r ≡ None) (λ f. r ≡ Some f) }
        ensures links { IfOk result (λ n. (n ≡ length (entry_path (table_of net.now) entries.now station)) × (reverse (take n way.new) ≡ entry_path (table_of net.now) entries.now station)) }
        ensures fits { IfOk result (λ n. n ≤ places) }
    {
        self.may_ask(net, labels, entries, station)?;
        reached(entries, station)?;
        let walk = walk_back(net, entries, station, way);
        self.home(entries, walk.end)?;
        fitting(walk.links, places)?;
        Ok(walk.links)
    }

    // Writes the links of the way from the gateway to a station, in the order of travel, into the first places, and tells how many they are.
    pub fn route<K: Kind, L: CandidateList<K>>(
        &self,
        net: &Net,
        // The memory is the same at every call; this one looks neither at the grades nor at the list.
        _grades: &[K::Grade],
        labels: &[K::Label],
        entries: &[u16],
        _list: &L,
        station: u16,
        places: &mut [u16],
    ) -> Result<u16, BookFault>
        ensures does { Does K.Kind L.CandidateList (table_of net.now) (memory self.now _grades.now labels.now entries.now _list.now) (calls.route station (length places.old)) (route_told result places.new) (memory self.now _grades.now labels.now entries.now _list.now) }
        ensures law { KeepsLaw K.Kind L.CandidateList (table_of net.now) (memory self.now _grades.now labels.now entries.now _list.now) (calls.route station (length places.old)) (route_told result places.new) (memory self.now _grades.now labels.now entries.now _list.now) }
        ensures written { MatchResult result (λ n. (n ≡ length (entry_path (table_of net.now) entries.now station)) × (places.new ≡ entry_path (table_of net.now) entries.now station ++ drop n places.old)) (λ _. places.new ≡ places.old) }
    {
        let mut way = [0; 1024];
        let links = self.may_route(net, labels, entries, station, places.len(), &mut way)?;
        turn(places, &mut way, links);
        Ok(links)
    }
}
