// Any of the candidate lists.
ghost use Rattle.kinds.specs.declared.kind.Kind.{Ghosts};
ghost use Rattle.lists.specs.Orders.{lawful-by};
ghost use Rattle.lists.specs.Order.{waits_by, emptied_by, entered_by, picked_by};
ghost use Rattle.choice.specs.AnyModels.{any_model};
ghost use Rattle.choice.specs.AnyOrder.{any_order};
ghost use Rattle.choice.specs.AnyLaws.{AnySound, sound, any_laws};

use buckets::bucket::Bucket;
use kinds::kind::Kind;
use lists::first_in::FirstIn;
use lists::list::{CandidateList, Entered};
use lists::small_label::SmallLabel;
use lists::threshold::Threshold;
use lists::two_ended::TwoEnded;
use refusals::list::ListFault;

// One of the lists, held by value; it is a candidate list itself, in the order of the list that it is.
// It is an enum, and no `dyn CandidateList` in a box: a list lies in fixed memory, and not on the heap.
#[derive(Drop)]
pub enum AnyList<K: Kind> {
    FirstIn(FirstIn),
    TwoEnded(TwoEnded),
    SmallLabel(SmallLabel),
    Threshold(Threshold<K>),
    Bucket(Bucket),
}

impl<K: Kind> CandidateList<K> for AnyList<K> {
    ghost waits = { waits_by any_model (any_order K.Kind) };

    ghost emptied = { emptied_by any_model (any_order K.Kind) };

    ghost entered = { entered_by any_model (any_order K.Kind) };

    ghost picked = { picked_by any_model (any_order K.Kind) };

    // The record of the kind's members is spelt out, since an impl over a bound has no name for it.
    ghost lawful = { let k : Ghosts K K.Label K.Grade = record { start = K.start; carry = K.carry; at_least = K.at_least; rank = K.rank } in
        lawful-by any_model (any_order k) (AnySound k K.lawful) (any_laws k K.lawful) (sound k K.lawful) };

    fn empty(&mut self) {
        match self {
            AnyList::FirstIn(list) => CandidateList::<K>::empty(list),
            AnyList::TwoEnded(list) => CandidateList::<K>::empty(list),
            AnyList::SmallLabel(list) => CandidateList::<K>::empty(list),
            AnyList::Threshold(list) => CandidateList::<K>::empty(list),
            AnyList::Bucket(list) => CandidateList::<K>::empty(list),
        }
    }

    fn enter(&mut self, station: u16, labels: &[K::Label]) -> Result<Entered, ListFault> {
        match self {
            AnyList::FirstIn(list) => CandidateList::<K>::enter(list, station, labels),
            AnyList::TwoEnded(list) => CandidateList::<K>::enter(list, station, labels),
            AnyList::SmallLabel(list) => CandidateList::<K>::enter(list, station, labels),
            AnyList::Threshold(list) => CandidateList::<K>::enter(list, station, labels),
            AnyList::Bucket(list) => CandidateList::<K>::enter(list, station, labels),
        }
    }

    fn pick(&mut self, labels: &[K::Label]) -> Option<u16> {
        match self {
            AnyList::FirstIn(list) => CandidateList::<K>::pick(list, labels),
            AnyList::TwoEnded(list) => CandidateList::<K>::pick(list, labels),
            AnyList::SmallLabel(list) => CandidateList::<K>::pick(list, labels),
            AnyList::Threshold(list) => CandidateList::<K>::pick(list, labels),
            AnyList::Bucket(list) => CandidateList::<K>::pick(list, labels),
        }
    }

    fn waiting(&self) -> u16 {
        match self {
            AnyList::FirstIn(list) => CandidateList::<K>::waiting(list),
            AnyList::TwoEnded(list) => CandidateList::<K>::waiting(list),
            AnyList::SmallLabel(list) => CandidateList::<K>::waiting(list),
            AnyList::Threshold(list) => CandidateList::<K>::waiting(list),
            AnyList::Bucket(list) => CandidateList::<K>::waiting(list),
        }
    }
}
