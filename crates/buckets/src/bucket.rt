// The bucket list.
ghost use Rattle.std.specs.Prelude.{◌<◌, length};
ghost use Rattle.buckets.specs.Shelved.{rows_of};

use crate::shelves::Shelves;

// A station waits in the bucket of its label's rank, behind those that came there before it. The buckets are a ring: where the ranks go
// on beyond the last bucket, they go round.
#[derive(Drop)]
pub struct Bucket {
    shelves: Shelves,
    // How many ranks one bucket takes.
    width: u32,
    // The bucket of the last pick, from which the next one searches.
    last: u8,
    ghost wide: { 0 < width },
    ghost within: { last < length (rows_of shelves) },
}

pub mod acts;
