// The two-ended list: D'Esopo–Pape.
ghost use Rattle.std.specs.Prelude.{◌≡◌, length};

use crate::queue::Queue;

// A station's first entry since emptying goes to the bottom, a later one to the top.
#[derive(Drop)]
pub struct TwoEnded {
    queue: Queue,
    // Which stations have entered since emptying: an array, since a set of the library lies on the heap.
    seen: [bool; 1024],
    ghost fits: { length seen ≡ 1024 },
}

pub mod acts;
