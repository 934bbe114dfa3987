// The bucket candidate list: stations in buckets by the rank of their labels, picked bucket by bucket.
#![tactic(auto)]

pub mod bucket;
mod chains;
mod node;
mod shelves;
mod small_set;
