// A caller of the single calls and of the check, who has the law of runs from their contracts.
ghost use Rattle.std.specs.Prelude.{◌≡◌, ◌<◌, [], ◌∷◌, Some, None, IfOk, OnErr, MatchResult};
ghost use Rattle.net.specs.Judged.{judged};
ghost use Rattle.net.specs.View.{table_of};
ghost use Rattle.plans.specs.Best.{BestPaths};
ghost use Rattle.plans.specs.Faults.{first_fault};
ghost use Rattle.plans.specs.Plan.{plan};
ghost use Rattle.runs.specs.Calls.{refusal};
ghost use Rattle.runs.specs.Calls as calls;
ghost use Rattle.runs.specs.Law.{event, Run};
ghost use Rattle.book.specs.Books.{new_book};
ghost use Rattle.book.specs.Memories.{memory};
ghost use Rattle.book.specs.Working.{started_at};

use book::book::Book;
use checks::check::check;
use kinds::kind::Kind;
use lists::list::CandidateList;
use net::star::Net;
use refusals::book::BookFault;
use refusals::check::CheckFault;

// How many picks a plan took, how many stations still wait, and what the check answered.
#[derive(Clone, Copy, Debug, PartialEq, Eq)]
pub struct Planned {
    pub picks: u16,
    pub waiting: u16,
    pub checked: Result<(), CheckFault>,
}

// Starts a new book from a gateway, works, and checks the plan.
// It is refused exactly where the start is, with that refusal, since work after an accepted start is never refused; then labels, entries and
// list are as they were. Otherwise its start and its work, with the picks and the waiting stations that it tells, are a run of the new book, and
// `checked` tells the first fault of the plan, or none. Where none waits, every station has the best of its paths, and the check finds no fault.
// None waits where it took fewer picks than it was allowed.
pub fn plan_from<K: Kind, L: CandidateList<K>>(
    net: &Net,
    grades: &[K::Grade],
    labels: &mut [K::Label],
    entries: &mut [u16],
    list: &mut L,
    gateway: u16,
    allowed: u16,
) -> Result<Planned, BookFault>
    ensures refuses { let r = refusal (table_of net.now) (memory new_book grades.now labels.old entries.old list.old) (calls.start gateway) in MatchResult result (λ _. r ≡ None) (λ f. r ≡ Some f) }
    ensures unchanged { OnErr result ((labels.new ≡ labels.old) × (entries.new ≡ entries.old) × (list.new ≡ list.old)) }
    ensures runs { IfOk result (λ made. Run K.Kind L.CandidateList (table_of net.now) (memory new_book grades.now labels.old entries.old list.old) (event (calls.work allowed) (calls.worked made.picks made.waiting) ∷ event (calls.start gateway) calls.started ∷ []) (memory (started_at gateway) grades.now labels.new entries.new list.new)) }
    ensures checks { IfOk result (λ made. made.checked ≡ judged (first_fault K.Kind (table_of net.now) gateway grades.now (plan labels.new entries.new))) }
    ensures best { IfOk result (λ made. made.waiting ≡ 0 → BestPaths K.Kind (table_of net.now) gateway grades.now (plan labels.new entries.new)) }
    ensures passes { IfOk result (λ made. made.waiting ≡ 0 → made.checked ≡ Ok tt) }
    ensures done { IfOk result (λ made. made.picks < allowed → made.waiting ≡ 0) }
{
    let mut book = Book::new();
    book.start::<K, L>(net, grades, labels, entries, list, gateway)?;
    let (picks, waiting) = book.work::<K, L>(net, grades, labels, entries, list, allowed)?;
    let checked = check::<K>(net, grades, gateway, labels, entries);
    Ok(Planned {
        picks,
        waiting,
        checked,
    })
}
