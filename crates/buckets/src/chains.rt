// Queues of stations, as chains of nodes.
ghost use Rattle.std.specs.Prelude.{◌≡◌, ℕ, ◌+◌, ◌<◌, true, length, is_some, None, slice_index, slice_index_or};
ghost use Rattle.std.specs.Option.{ForSome};
ghost use Rattle.lists.specs.Meaning.{count_below};
ghost use Rattle.lists.specs.Stations.{holds, proper};
ghost use Rattle.buckets.specs.Nodes.{nexts, prevs};
ghost use Rattle.buckets.specs.Ties.{row_of, linked, is_home};

use crate::node::Node;

// 64 queues of stations below 1,024, each station in at most one. The nodes below 1,024 are the stations, and 1,024 + b is both ends of
// the chain b; `home` tells of each station the chain that it is in.
// They are nodes in one array, since no list may fail for want of memory, and any station leaves in constant time; `home` is apart from the nodes, since the two ends of a chain are in none.
// They have no `Model`, which would hide these facts.
#[derive(Drop)]
pub struct Chains {
    nodes: [Node; 1088],
    home: [Option<u8>; 1024],
    len: u16,
    ghost sized: { (length nodes ≡ 1088) × (length home ≡ 1024) },
    ghost ties: { (b : ℕ) → b < 64 → linked (λ i. slice_index (nexts nodes) i) (λ i. slice_index (prevs nodes) i) (1024 + b) (row_of (nexts nodes) b) (1024 + b) ≡ true },
    ghost once: { (b : ℕ) → b < 64 → proper (row_of (nexts nodes) b) ≡ true },
    ghost homes: { (b : ℕ) → b < 64 → (k : ℕ) → holds (row_of (nexts nodes) b) k ≡ is_home (slice_index_or home k None) b },
    ghost within: { (k : ℕ) → ForSome (slice_index_or home k None) (λ b. b < 64) },
    ghost counted: { len ≡ count_below (λ k. is_some (slice_index_or home k None)) 1024 },
}

pub mod acts;
