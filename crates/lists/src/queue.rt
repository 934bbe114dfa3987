// A queue of stations, none twice, in a ring of 1,024 places.
ghost use Rattle.std.specs.Prelude.{◌≡◌, ℕ, ◌<◌, ◌≤◌, true, false, length, slice_index_or};
ghost use Rattle.lists.specs.Ring.{ring_from, numbers_of};
ghost use Rattle.lists.specs.Stations.{holds, proper};

use crate::station::Station;

// The stations from the top, at place `top`, to the bottom, `len` of them; `held` tells of each station whether it is in the queue.
// The ring is its own: `VecDeque` and `HeapCircularBuffer` lie on the heap, where a list may fail for want of memory, and `ArrayVec` moves every item at a pick. `held` is an array for the same.
// It has no `Model`, which would hide `once`, and the laws of the lists rest on that.
#[derive(Drop)]
pub struct Queue {
    ring: [Station; 1024],
    top: u16,
    len: u16,
    held: [bool; 1024],
    ghost fits: { (length ring ≡ 1024) × (length held ≡ 1024) × (top < 1024) × (len ≤ 1024) },
    ghost once: { proper (ring_from (numbers_of ring) top len) ≡ true },
    ghost marks: { (k : ℕ) → k < 1024 → slice_index_or held k false ≡ holds (ring_from (numbers_of ring) top len) k },
}

pub mod acts;
