// The threshold list.
ghost use Rattle.lists.specs.Queues.{line_of};
ghost use Rattle.lists.specs.Stations.{Apart};

use crate::queue::Queue;
use kinds::kind::Kind;

// Two queues: a station whose label at its entering is at least as good as the threshold `limit`, or was not handed over, goes to the
// first, any other to the second. A pick that finds the first empty fills it from the second.
#[derive(Drop)]
pub struct Threshold<K: Kind> {
    first: Queue,
    second: Queue,
    limit: K::Label,
    step: K::Grade,
    ghost apart: { Apart (line_of first) (line_of second) },
}

pub mod acts;
