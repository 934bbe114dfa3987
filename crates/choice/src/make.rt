// Making the list that was chosen.
ghost use Rattle.std.specs.Prelude.{◌≡◌, IfOk, Ok, Err, MatchResult};
ghost use Rattle.choice.specs.AnyModels.{any_model};
ghost use Rattle.choice.specs.Leaving.{Leaving};
ghost use Rattle.choice.specs.Choices.{choice_name, choice_of, chosen, Fresh};

use crate::any::AnyList;
use crate::list_name::ListName;
use buckets::bucket::Bucket;
use kinds::kind::Kind;
use lists::first_in::FirstIn;
use lists::small_label::SmallLabel;
use lists::threshold::Threshold;
use lists::two_ended::TwoEnded;
use refusals::list::ListFault;

// A list, with what its making takes. `ListName` is apart from it, since the name is known before the step, the width and the span are.
#[derive(Clone, Copy)]
pub enum Choice<G> {
    FirstIn,
    TwoEnded,
    SmallLabel,
    // The step.
    Threshold(G),
    // The width and the span: a struct of the two would only be made here and taken apart in `make`.
    Bucket(u32, u32),
}

// The list of a name, with the step, or the width and the span, where it takes one.
pub fn choice_of<G: Copy>(name: ListName, step: G, width: u32, span: u32) -> Choice<G>
    ensures { result ≡ choice_of name step width span }
{
    match name {
        ListName::FirstIn => Choice::FirstIn,
        ListName::TwoEnded => Choice::TwoEnded,
        ListName::SmallLabel => Choice::SmallLabel,
        ListName::Threshold => Choice::Threshold(step),
        ListName::Bucket => Choice::Bucket(width, span),
    }
}

impl<G> Choice<G> {
    pub fn name(&self) -> ListName
        ensures { result ≡ choice_name self.now }
    {
        match self {
            Choice::FirstIn => ListName::FirstIn,
            Choice::TwoEnded => ListName::TwoEnded,
            Choice::SmallLabel => ListName::SmallLabel,
            Choice::Threshold(_) => ListName::Threshold,
            Choice::Bucket(_, _) => ListName::Bucket,
        }
    }
}

// The list that was chosen, without a station; buckets that cannot be had are refused.
pub fn make<K: Kind>(choice: Choice<K::Grade>) -> Result<AnyList<K>, ListFault>
    ensures is { MatchResult result (λ list. chosen K.Kind choice ≡ Ok (any_model list)) (λ fault. chosen K.Kind choice ≡ Err fault) }
    ensures leaving { Leaving K.Kind choice }
    ensures fresh { IfOk result (λ list. Fresh K.Kind (any_model list)) }
{
    match choice {
        Choice::FirstIn => Ok(AnyList::FirstIn(FirstIn::new())),
        Choice::TwoEnded => Ok(AnyList::TwoEnded(TwoEnded::new())),
        Choice::SmallLabel => Ok(AnyList::SmallLabel(SmallLabel::new())),
        Choice::Threshold(step) => Ok(AnyList::Threshold(Threshold::new(step))),
        Choice::Bucket(width, span) => Ok(AnyList::Bucket(Bucket::new(width, span)?)),
    }
}
