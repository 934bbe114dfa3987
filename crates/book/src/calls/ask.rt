// Asking after a station.
ghost use Rattle.std.specs.Prelude.{◌≡◌, ℕ, ◌<◌, [], length, Some, None, MatchResult};
ghost use Rattle.net.specs.View.{table_of};
ghost use Rattle.plans.specs.Plan.{plan, known};
ghost use Rattle.runs.specs.Calls.{refusal, Does};
ghost use Rattle.runs.specs.Calls as calls;
ghost use Rattle.runs.specs.Law.{KeepsLaw};
ghost use Rattle.book.specs.Memories.{memory, seen, reached_told, ask_told};

use crate::asked::{Asked, Reached};
use crate::book::Book;
use crate::fitting::sized;
use crate::station::in_net;
use kinds::kind::Kind;
use lists::list::CandidateList;
use net::star::Net;
use refusals::book::BookFault;
use walks::entry::{entry_of, labelled};

// What is known of a station.
fn reached<K: Kind>(labels: &[K::Label], entries: &[u16], station: u16) -> Option<Reached<K::Label>>
    requires { station < length labels.now }
    ensures { reached_told result ≡ known K.Kind (plan labels.now entries.now) station }
{
    if !labelled(entries, station) {
        return None;
    }
    Some(Reached {
        label: labels[station as usize],
        entry: entry_of(entries, station),
    })
}

impl Book {
    // The tests of a question, in their order. They look neither at the grades nor at the list.
    pub(super) fn may_ask<L: Copy>(
        &self,
        net: &Net,
        labels: &[L],
        entries: &[u16],
        station: u16,
    ) -> Result<(), BookFault>
        ensures { let r = refusal {G = ℕ} (table_of net.now) (seen self.now [] labels.now entries.now) (calls.ask station) in MatchResult result (λ _. r ≡ None) (λ f. r ≡ Some f) }
    {
        sized(net, labels.len(), entries.len())?;
        self.under_way()?;
        in_net(net, station)
    }

    // What is known of a station, and how many stations wait.
    pub fn ask<K: Kind, L: CandidateList<K>>(
        &self,
        net: &Net,
        // The memory is the same at every call; this one does not look at the grades.
        _grades: &[K::Grade],
        labels: &[K::Label],
        entries: &[u16],
        list: &L,
        station: u16,
    ) -> Result<Asked<K::Label>, BookFault>
        ensures does { Does K.Kind L.CandidateList (table_of net.now) (memory self.now _grades.now labels.now entries.now list.now) (calls.ask station) (ask_told result) (memory self.now _grades.now labels.now entries.now list.now) }
        ensures law { KeepsLaw K.Kind L.CandidateList (table_of net.now) (memory self.now _grades.now labels.now entries.now list.now) (calls.ask station) (ask_told result) (memory self.now _grades.now labels.now entries.now list.now) }
    {
        self.may_ask(net, labels, entries, station)?;
        Ok(Asked {
            reached: reached::<K>(labels, entries, station),
            waiting: list.waiting(),
        })
    }
}
