// The first-in list: the Bellman–Ford queue.
ghost use Rattle.std.specs.Prelude.{◌≡◌, true, []};
ghost use Rattle.lists.specs.FirstIns.{first_line, first_in};
ghost use Rattle.lists.specs.Order.{waits_by, emptied_by, entered_by, picked_by};
ghost use Rattle.lists.specs.Stations.{proper};
ghost use Rattle.lists.specs.Lines.{first-laws};
ghost use Rattle.lists.specs.Orders.{lawful-by};

use crate::list::{CandidateList, Entered};
use crate::queue::Queue;
use crate::station::Station;
use kinds::kind::Kind;
use refusals::list::ListFault;

// A station enters at the bottom and is picked from the top.
// It stands apart from the small-label and two-ended lists: they differ in model, order and the proof of their laws, each of which a trait for their rules would have to name for each.
#[derive(Drop)]
pub struct FirstIn {
    queue: Queue,
}

impl FirstIn {
    pub fn new() -> FirstIn
        ensures { first_line result ≡ [] }
    {
        FirstIn {
            queue: Queue::new(),
        }
    }
}

impl<K: Kind> CandidateList<K> for FirstIn {
    ghost waits = { waits_by first_line (first_in {A = K.Label}) };

    ghost emptied = { emptied_by first_line (first_in {A = K.Label}) };

    ghost entered = { entered_by first_line first_in };

    ghost picked = { picked_by first_line first_in };

    ghost lawful = { lawful-by first_line first_in (λ q. proper q ≡ true) first-laws (λ s. s.queue.once) };

    fn empty(&mut self) {
        self.queue.clear();
    }

    fn enter(&mut self, station: u16, _labels: &[K::Label]) -> Result<Entered, ListFault> {
        let station = Station::try_from(station)?;
        if self.queue.has(station) {
            return Ok(Entered::Waiting);
        }
        self.queue.push_bottom(station);
        Ok(Entered::New)
    }

    fn pick(&mut self, _labels: &[K::Label]) -> Option<u16> {
        self.queue.pop().map(Station::index)
    }

    fn waiting(&self) -> u16 {
        self.queue.len()
    }
}
