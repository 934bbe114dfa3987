// The small-label-first list.
ghost use Rattle.std.specs.Prelude.{◌≡◌, true, []};
ghost use Rattle.lists.specs.SmallLabels.{small_line, small_label, goes_first, as_good};
ghost use Rattle.lists.specs.Queues.{line_of};
ghost use Rattle.lists.specs.Order.{waits_by, emptied_by, entered_by, picked_by};
ghost use Rattle.lists.specs.Stations.{proper};
ghost use Rattle.lists.specs.Lines.{small-laws};
ghost use Rattle.lists.specs.Orders.{lawful-by};

use crate::handed::handed;
use crate::list::{CandidateList, Entered};
use crate::queue::Queue;
use crate::station::Station;
use kinds::kind::Kind;
use refusals::list::ListFault;

// A station goes to the top if its label is at least as good as the top station's, else to the bottom.
#[derive(Drop)]
pub struct SmallLabel {
    queue: Queue,
}

impl SmallLabel {
    pub fn new() -> SmallLabel
        ensures { small_line result ≡ [] }
    {
        SmallLabel {
            queue: Queue::new(),
        }
    }
}

// Whether both labels are there, and the first is at least as good.
fn as_good<K: Kind>(label: Option<K::Label>, rival: Option<K::Label>) -> bool
    ensures { result ≡ as_good K.Kind.at_least label rival }
{
    match (label, rival) {
        (Some(a), Some(b)) => K::at_least_as_good(a, b),
        _ => false,
    }
}

// Whether a station goes above the queue.
fn goes_first<K: Kind>(labels: &[K::Label], station: Station, queue: &Queue) -> bool
    ensures { result ≡ goes_first K.Kind.at_least labels.now station.index (line_of queue.now) }
{
    queue.top().is_some_and(|rival| as_good::<K>(
        handed(labels, station.index()),
        handed(labels, rival.index()),
    ))
}

impl<K: Kind> CandidateList<K> for SmallLabel {
    ghost waits = { waits_by small_line (small_label K.Kind.at_least) };

    ghost emptied = { emptied_by small_line (small_label K.Kind.at_least) };

    ghost entered = { entered_by small_line (small_label K.Kind.at_least) };

    ghost picked = { picked_by small_line (small_label K.Kind.at_least) };

    ghost lawful = { lawful-by small_line (small_label _) (λ q. proper q ≡ true) (small-laws _) (λ s. s.queue.once) };

    fn empty(&mut self) {
        self.queue.clear();
    }

    fn enter(&mut self, station: u16, labels: &[K::Label]) -> Result<Entered, ListFault> {
        let station = Station::try_from(station)?;
        if self.queue.has(station) {
            return Ok(Entered::Waiting);
        }
        if goes_first::<K>(labels, station, &self.queue) {
            self.queue.push_top(station);
        } else {
            self.queue.push_bottom(station);
        }
        Ok(Entered::New)
    }

    fn pick(&mut self, _labels: &[K::Label]) -> Option<u16> {
        self.queue.pop().map(Station::index)
    }

    fn waiting(&self) -> u16 {
        self.queue.len()
    }
}
