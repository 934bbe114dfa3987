// What the two-ended list does. Indices are cast: `usize::from` at each is no plainer, and a step more in every proof.
ghost use Rattle.std.specs.Prelude.{◌≡◌};
ghost use Rattle.lists.specs.TwoEndeds.{ends, no_ends, two_ended};
ghost use Rattle.lists.specs.Order.{waits_by, emptied_by, entered_by, picked_by};
ghost use Rattle.std.proofs.Math.Bool;
ghost use Rattle.lists.specs.Stations.{proper};
ghost use Rattle.lists.specs.Lines.{two-laws};
ghost use Rattle.lists.specs.Orders.{lawful-by};

use super::TwoEnded;
use crate::list::{CandidateList, Entered};
use crate::queue::Queue;
use crate::station::Station;
use kinds::kind::Kind;
use refusals::list::ListFault;

impl TwoEnded {
    pub fn new() -> TwoEnded
        ensures { ends result ≡ no_ends }
    {
        TwoEnded {
            queue: Queue::new(),
            seen: [false; 1024],
        }
    }
}

impl<K: Kind> CandidateList<K> for TwoEnded {
    ghost waits = { waits_by ends (two_ended {A = K.Label}) };

    ghost emptied = { emptied_by ends (two_ended {A = K.Label}) };

    ghost entered = { entered_by ends two_ended };

    ghost picked = { picked_by ends two_ended };

    ghost lawful = { lawful-by ends two_ended (λ m. proper m.line ≡ Bool.true) two-laws (λ s. s.queue.once) };

    fn empty(&mut self) {
        self.queue.clear();
        self.seen = [false; 1024];
    }

    fn enter(&mut self, station: u16, _labels: &[K::Label]) -> Result<Entered, ListFault> {
        let station = Station::try_from(station)?;
        if self.queue.has(station) {
            return Ok(Entered::Waiting);
        }
        if self.seen[station.index() as usize] {
            self.queue.push_top(station);
        } else {
            self.seen[station.index() as usize] = true;
            self.queue.push_bottom(station);
        }
        Ok(Entered::New)
    }

    fn pick(&mut self, _labels: &[K::Label]) -> Option<u16> {
        self.queue.pop().map(Station::index)
    }

    fn waiting(&self) -> u16 {
        self.queue.len()
    }
}
