// The search for the stations whose backward walk comes to a station: from this root outwards, over links that are the entries of their heads.
// It goes through each of these stations once, and looks at each of their links once.
ghost use Rattle.std.specs.Prelude.{◌≡◌, ℕ, ◌+◌, ◌<◌, ◌≤◌, true, false, ◌||◌, ◌==◌, slice_index, slice_set};
ghost use Rattle.lists.specs.Meaning.{count_below};
ghost use Rattle.net.specs.Table.{station_count};
ghost use Rattle.net.specs.View.{table_of};
ghost use Rattle.walks.specs.Branches.{marked};
ghost use Rattle.walks.specs.Search.{Reached, Kept};
ghost use Rattle.walks.specs.Walk.{MovesTo, crosses, comes, passes};

use super::Branch;
use crate::entered::entered;
use net::star::Net;

impl Branch {
    // A branch of no station.
    fn new() -> Branch
        ensures marks { (v : ℕ) → marked result v ≡ false }
        ensures count { result.count ≡ 0 }
    {
        Branch {
            marks: [false; 1024],
            count: 0,
        }
    }

    // Adds a station that is not yet one of them, and puts it behind the others in the queue.
    fn add(&mut self, station: u16, queue: &mut [u16; 1024])
        requires station { station < 1024 }
        requires unmarked { marked self.old station ≡ false }
        ensures marks { (v : ℕ) → marked self.new v ≡ (v == station || marked self.old v) }
        ensures count { self.new.count ≡ self.old.count + 1 }
        ensures queue { queue.new ≡ slice_set queue.old self.old.count station }
    {
        queue[self.count as usize] = station;
        self.marks[station as usize] = true;
        self.count += 1;
    }
}

// Adds the stations from which the backward walk moves to the one at this place of the queue.
fn spread(net: &Net, entries: &[u16], at: u16, queue: &mut [u16; 1024], found: &mut Branch)
    requires at { at < found.old.count }
    requires reached { Reached (table_of net.now) entries.now (marked found.old) queue.old found.old.count }
    ensures reached { Reached (table_of net.now) entries.now (marked found.new) queue.new found.new.count }
    ensures kept { Kept (marked found.old) queue.old found.old.count (marked found.new) queue.new found.new.count }
    ensures passed { (v : ℕ) → MovesTo (table_of net.now) entries.now v (slice_index queue.old at) → marked found.new v ≡ true }
{
    let Some(links) = net.links_of(queue[at as usize]) else {
        return;
    };
    for link in links {
        if let Some(head) = entered(net, entries, link) {
            if !found.has(head) {
                found.add(head, queue);
            }
        }
    }
}

// The stations whose backward walk comes to the root. The search finds each in fewer moves than there are stations, so that more moves find no more.
fn grown(net: &Net, entries: &[u16], root: u16) -> Branch
    requires { root < station_count (table_of net.now) }
    ensures { (k v : ℕ) → station_count (table_of net.now) ≤ k + 1 → marked result v ≡ comes (table_of net.now) entries.now root k v }
{
    let mut found = Branch::new();
    let mut queue = [0; 1024];
    found.add(root, &mut queue);
    let mut at = 0;
    while at < found.count {
        spread(net, entries, at, &mut queue, &mut found);
        at += 1;
    }
    found
}

// The stations whose backward walk comes to the root; there are none if the root is no station of the net.
pub fn branch(net: &Net, entries: &[u16], root: u16) -> Branch
    ensures stations { (v : ℕ) → v < station_count (table_of net.now) → marked result v ≡ passes (table_of net.now) entries.now root v }
    ensures count { count_below (marked result) 1024 ≡ count_below (passes (table_of net.now) entries.now root) (station_count (table_of net.now)) }
{
    if root < net.stations() {
        grown(net, entries, root)
    } else {
        Branch::new()
    }
}

// The stations whose backward walk meets a link: the branch of its head, if the link is the entry of this.
pub fn crossing(net: &Net, entries: &[u16], link: u16) -> Branch
    ensures stations { (v : ℕ) → marked result v ≡ crosses (table_of net.now) entries.now link v }
    ensures count { count_below (marked result) 1024 ≡ count_below (crosses (table_of net.now) entries.now link) (station_count (table_of net.now)) }
{
    match entered(net, entries, link) {
        Some(head) => grown(net, entries, head),
        None => Branch::new(),
    }
}
