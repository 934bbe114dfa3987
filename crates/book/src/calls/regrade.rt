// Regrading a link. Indices are cast: `usize::from` at each is no plainer, and a step more in every proof.
ghost use Rattle.std.specs.Prelude.{◌≡◌, ◌<◌, true, false, not, ◌&&◌, ◌==◌, length, nat_lt, Some, None, IfOk, MatchResult};
ghost use Rattle.net.specs.Table.{station_count, link_count, head_at, tail_at};
ghost use Rattle.net.specs.View.{table_of};
ghost use Rattle.refusals.specs.declared.book.BookFault.TheVariants as fault;
ghost use Rattle.plans.specs.Plan.{plan, label_at};
ghost use Rattle.runs.specs.Calls.{refusal, Does};
ghost use Rattle.runs.specs.Calls as calls;
ghost use Rattle.runs.specs.Law.{KeepsLaw};
ghost use Rattle.walks.specs.Walk.{entry_at};
ghost use Rattle.book.specs.Memories.{memory, seen, regrade_told};

use crate::book::Book;
use crate::clearing::clear;
use crate::fitting::{graded, sized};
use crate::waking::{wake, wake_one};
use kinds::kind::Kind;
use lists::list::CandidateList;
use net::star::Net;
use refusals::book::BookFault;
use walks::branch::search::crossing;
use walks::entry::entry_of;

// The tail and the head of a link.
fn ends(net: &Net, link: u16) -> Result<(u16, u16), BookFault>
    ensures stations { IfOk result (λ e. (e.0 < station_count (table_of net.now)) × (e.1 < station_count (table_of net.now))) }
    ensures ends { MatchResult result (λ e. (nat_lt link (link_count (table_of net.now)) ≡ true) × (e.0 ≡ tail_at (table_of net.now) link) × (e.1 ≡ head_at (table_of net.now) link)) (λ f. (f ≡ fault.NoLink) × (nat_lt link (link_count (table_of net.now)) ≡ false)) }
{
    match (net.tail(link), net.head(link)) {
        (Some(tail), Some(head)) => Ok((tail, head)),
        _ => Err(BookFault::NoLink),
    }
}

// Whether a link of this grade spoils its head: it is the head's entry, and brings a label that is worse than the head's.
fn spoils<K: Kind>(
    labels: &[K::Label],
    entries: &[u16],
    link: u16,
    tail: u16,
    head: u16,
    grade: K::Grade,
) -> bool
    requires tail { tail < length labels.now }
    requires head { head < length labels.now }
    ensures { result ≡ (entry_at entries.now head == link && not (K.at_least (K.carry (label_at K.Kind (plan labels.now entries.now) tail) grade) (label_at K.Kind (plan labels.now entries.now) head))) }
{
    entry_of(entries, head) == link
        && !K::at_least_as_good(
            K::carry(labels[tail as usize], grade),
            labels[head as usize],
        )
}

impl Book {
    // The tests of a regrade, in their order, which end with the tail and the head of the link. They do not look at the list.
    fn may_regrade<K: Kind>(
        &self,
        net: &Net,
        grades: &[K::Grade],
        labels: &[K::Label],
        entries: &[u16],
        link: u16,
    ) -> Result<(u16, u16), BookFault>
        ensures judged { (x : K.Grade) → let r = refusal (table_of net.now) (seen self.now grades.now labels.now entries.now) (calls.regrade link x) in MatchResult result (λ _. r ≡ None) (λ f. r ≡ Some f) }
        ensures ends { IfOk result (λ e. (e.0 ≡ tail_at (table_of net.now) link) × (e.1 ≡ head_at (table_of net.now) link)) }
        ensures stations { IfOk result (λ e. (e.0 < length labels.now) × (e.1 < length labels.now)) }
    {
        graded(net, grades.len())?;
        sized(net, labels.len(), entries.len())?;
        self.under_way()?;
        ends(net, link)
    }

    // Gives a link another grade. It tells how many stations lost their label by it, and how many are new to the list.
    pub fn regrade<K: Kind, L: CandidateList<K>>(
        &self,
        net: &Net,
        grades: &mut [K::Grade],
        labels: &mut [K::Label],
        entries: &mut [u16],
        list: &mut L,
        link: u16,
        grade: K::Grade,
    ) -> Result<(u16, u16), BookFault>
        ensures does { Does K.Kind L.CandidateList (table_of net.now) (memory self.now grades.old labels.old entries.old list.old) (calls.regrade link grade) (regrade_told result) (memory self.now grades.new labels.new entries.new list.new) }
        ensures law { KeepsLaw K.Kind L.CandidateList (table_of net.now) (memory self.now grades.old labels.old entries.old list.old) (calls.regrade link grade) (regrade_told result) (memory self.now grades.new labels.new entries.new list.new) }
    {
        let (tail, head) = self.may_regrade::<K>(net, grades, labels, entries, link)?;
        let spoils = spoils::<K>(labels, entries, link, tail, head, grade);
        grades[link as usize] = grade;
        if !spoils {
            return Ok((0, wake_one::<K, L>(labels, entries, list, tail)?));
        }
        let lost = crossing(net, entries, link);
        clear::<K>(net, labels, entries, &lost);
        let new = wake::<K, L>(net, labels, entries, list, &lost)?;
        Ok((lost.count(), new))
    }
}
