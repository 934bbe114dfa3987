// What the threshold list does.
ghost use Rattle.std.specs.Prelude.{◌≡◌, not, [], filter};
ghost use Rattle.std.specs.List.{slice_get};
ghost use Rattle.lists.specs.Order.{waits_by, emptied_by, entered_by, picked_by};
ghost use Rattle.lists.specs.Thresholds.{queues_of};
ghost use Rattle.lists.specs.Queues.{line_of};
ghost use Rattle.kinds.specs.declared.kind.Kind.{Ghosts};
ghost use Rattle.lists.specs.Orders.{lawful-by};
ghost use Rattle.lists.specs.ThresholdsLemmas.{Sound, threshold-laws};
ghost use Rattle.lists.specs.Thresholds.{passes, better_of, best_label, loosened, refilled, no_queues, threshold};

use super::Threshold;
use crate::handed::handed;
use crate::list::{CandidateList, Entered};
use crate::queue::Queue;
use crate::station::Station;
use kinds::kind::Kind;
use refusals::list::ListFault;

// Whether a label passes a threshold. One that was not handed over does; without a threshold no other does.
fn passing<K: Kind>(limit: Option<K::Label>, label: Option<K::Label>) -> bool
    ensures { result ≡ passes K.Kind limit label }
{
    match (limit, label) {
        (_, None) => true,
        (None, Some(_)) => false,
        (Some(limit), Some(label)) => K::at_least_as_good(label, limit),
    }
}

fn better_of<K: Kind>(best: Option<K::Label>, a: K::Label) -> K::Label
    ensures { result ≡ better_of K.Kind best a }
{
    match best {
        Some(best) if K::at_least_as_good(best, a) => best,
        _ => a,
    }
}

// The best label of a queue, or none where one was not handed over or the queue is empty. It counts places: a ring has no slice of its stations, and an iterator of its own would serve this loop alone.
fn best_label<K: Kind>(labels: &[K::Label], queue: &Queue) -> Option<K::Label>
    ensures { result ≡ best_label K.Kind labels.now (line_of queue.now) }
{
    let mut best = None;
    for i in 0..queue.len() {
        let label = handed(labels, queue.at(i).index())?;
        best = Some(better_of::<K>(best, label));
    }
    best
}

// Moves the stations of the second queue that pass over to the first, which is empty, in their order.
fn part<K: Kind>(
    first: &mut Queue,
    second: &mut Queue,
    labels: &[K::Label],
    limit: Option<K::Label>,
)
    requires { line_of first.old ≡ [] }
    ensures over { line_of first.new ≡ filter (λ x. passes K.Kind limit (slice_get labels.now x)) (line_of second.old) }
    ensures left { line_of second.new ≡ filter (λ x. not (passes K.Kind limit (slice_get labels.now x))) (line_of second.old) }
{
    // As many turns as it has stations at first: some go back to its bottom.
    for _ in 0..second.len() {
        if let Some(station) = second.pop() {
            if passing::<K>(limit, handed(labels, station.index())) {
                first.push_bottom(station);
            } else {
                second.push_bottom(station);
            }
        }
    }
}

impl<K: Kind> Threshold<K> {
    // A new list, with this step.
    pub fn new(step: K::Grade) -> Threshold<K>
        ensures { queues_of result ≡ no_queues K.Kind step }
    {
        Threshold {
            first: Queue::new(),
            second: Queue::new(),
            limit: K::start(),
            step,
        }
    }

    // The threshold that a pick sets where the first queue is empty: the best label of the second, carried over the step; or none where it
    // sets none.
    fn loosened(&self, labels: &[K::Label]) -> Option<K::Label>
        ensures { result ≡ loosened K.Kind (queues_of self.now) labels.now }
    {
        best_label::<K>(labels, &self.second).map(|best| K::carry(best, self.step))
    }

    // Fills the first queue, which is empty, from the second.
    fn refill(&mut self, labels: &[K::Label])
        requires { line_of self.old.first ≡ [] }
        ensures { queues_of self.new ≡ refilled K.Kind (queues_of self.old) labels.now }
    {
        let limit = self.loosened(labels);
        part::<K>(&mut self.first, &mut self.second, labels, limit);
        self.limit = limit.unwrap_or(self.limit);
    }
}

impl<K: Kind> CandidateList<K> for Threshold<K> {
    ghost waits = { waits_by queues_of (threshold K.Kind) };

    ghost emptied = { emptied_by queues_of (threshold K.Kind) };

    ghost entered = { entered_by queues_of (threshold K.Kind) };

    ghost picked = { picked_by queues_of (threshold K.Kind) };

    // The record of the kind's members is spelt out, since an impl over a bound has no name for it.
    ghost lawful = { let k : Ghosts K K.Label K.Grade = record { start = K.start; carry = K.carry; at_least = K.at_least; rank = K.rank } in
        lawful-by queues_of (threshold k) (Sound k) (threshold-laws k K.lawful)
        (λ s. record { first-once = s.first.once; second-once = s.second.once; separate = s.apart }) };

    fn empty(&mut self) {
        self.first.clear();
        self.second.clear();
        self.limit = K::start();
    }

    fn enter(&mut self, station: u16, labels: &[K::Label]) -> Result<Entered, ListFault> {
        let station = Station::try_from(station)?;
        if self.first.has(station) || self.second.has(station) {
            return Ok(Entered::Waiting);
        }
        if passing::<K>(Some(self.limit), handed(labels, station.index())) {
            self.first.push_bottom(station);
        } else {
            self.second.push_bottom(station);
        }
        Ok(Entered::New)
    }

    fn pick(&mut self, labels: &[K::Label]) -> Option<u16> {
        if self.first.len() == 0 {
            self.refill(labels);
        }
        self.first.pop().map(Station::index)
    }

    fn waiting(&self) -> u16 {
        self.first.len() + self.second.len()
    }
}
