// What chains do. Casts lose nothing, which is proved, and indices are cast: `usize::from` at each is no plainer, and a step more in every proof.
ghost use Rattle.std.specs.Prelude.{◌≡◌, ℕ, ◌+◌, ◌<◌, ◌≤◌, true, false, [], ◌∷◌, ◌++◌, length, if◌then◌else◌, nat_eq, option_map, slice_index};
ghost use Rattle.lists.specs.Meaning.{count_below};
ghost use Rattle.lists.specs.Stations.{top_of};
ghost use Rattle.buckets.specs.Nodes.{nexts, prevs};
ghost use Rattle.buckets.specs.Rows.{without, in_rows, home_in};
ghost use Rattle.buckets.specs.Links.{row, queues};

use super::Chains;
use crate::node::Node;
use lists::station::Station;

// Ties each end to itself. A loop over the ends alone: what the nodes of stations say does not matter, and `array::from_fn` would write all of them.
fn close(nodes: &mut [Node])
    requires { length nodes.old ≡ 1088 }
    ensures { (k : ℕ) → 1024 ≤ k → k < 1088 → (slice_index (nexts nodes.new) k ≡ k) × (slice_index (prevs nodes.new) k ≡ k) }
{
    for end in 1024..1088u16 {
        nodes[end as usize] = Node {
            next: end,
            prev: end,
        };
    }
}

impl Chains {
    pub(crate) fn new() -> Chains
        ensures { (k : ℕ) → k < 64 → row result k ≡ [] }
    {
        let mut nodes = [Node { next: 0, prev: 0 }; 1088];
        close(&mut nodes);
        Chains {
            nodes,
            home: [None; 1024],
            len: 0,
        }
    }

    // In place, since a new value would have to be moved here.
    pub(crate) fn clear(&mut self)
        ensures { (k : ℕ) → k < 64 → row self.new k ≡ [] }
    {
        close(&mut self.nodes);
        self.home = [None; 1024];
        self.len = 0;
    }

    // The chain that a station is in.
    pub(crate) fn home(&self, station: Station) -> Option<u8>
        ensures { home_in (queues self.now) station.index result }
    {
        self.home[station.index() as usize]
    }

    // The oldest station of the chain b. Its bound is asked, as in `SmallSet`.
    pub(crate) fn first(&self, b: u8) -> Option<Station>
        requires { b < 64 }
        ensures { option_map (λ s. s.index) result ≡ top_of (row self.now b) }
    {
        Station::try_from(self.nodes[1024 + b as usize].next).ok()
    }

    // How many stations are in chains.
    pub(crate) fn len(&self) -> u16
        ensures { result ≡ count_below (in_rows (queues self.now)) 1024 }
    {
        self.len
    }

    // The station, which is in no chain, goes to the end of the chain b.
    pub(crate) fn push(&mut self, b: u8, station: Station)
        requires bound { b < 64 }
        requires gone { in_rows (queues self.old) station.index ≡ false }
        ensures { (k : ℕ) → k < 64 → row self.new k ≡ (if nat_eq k b then row self.old k ++ station.index ∷ [] else row self.old k) }
    {
        let node = station.index();
        let end = 1024 + b as u16;
        let last = self.nodes[end as usize].prev;
        self.nodes[last as usize].next = node;
        self.nodes[node as usize] = Node {
            next: end,
            prev: last,
        };
        self.nodes[end as usize].prev = node;
        self.home[node as usize] = Some(b);
        self.len += 1;
    }

    // The station leaves its chain.
    pub(crate) fn unlink(&mut self, station: Station)
        requires { in_rows (queues self.old) station.index ≡ true }
        ensures { (k : ℕ) → k < 64 → row self.new k ≡ without station.index (row self.old k) }
    {
        let node = station.index();
        let Node { next, prev } = self.nodes[node as usize];
        self.nodes[prev as usize].next = next;
        self.nodes[next as usize].prev = prev;
        self.home[node as usize] = None;
        self.len -= 1;
    }
}
