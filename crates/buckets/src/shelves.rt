// The buckets' queues.
ghost use Rattle.std.specs.Prelude.{◌≡◌, ℕ, ◌<◌, ◌≤◌, false};
ghost use Rattle.buckets.specs.Links.{row};
ghost use Rattle.buckets.specs.Rows.{filled};
ghost use Rattle.buckets.specs.Sets.{member};

use crate::chains::Chains;
use crate::small_set::SmallSet;

// The first `count` chains, as rows. `busy` tells of each whether it has a station, so that the next that has one is found in constant time.
// It has no `Model`, nor have the chains, which would hide these facts, and the laws of the list rest on them.
#[derive(Drop)]
pub struct Shelves {
    chains: Chains,
    busy: SmallSet,
    count: u8,
    ghost fits: { count ≤ 64 },
    ghost marks: { (k : ℕ) → k < 64 → member busy k ≡ filled (row chains k) },
    ghost beyond: { (k : ℕ) → count ≤ k → k < 64 → filled (row chains k) ≡ false },
}

pub mod acts;
