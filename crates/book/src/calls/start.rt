// Starting a book.
ghost use Rattle.std.specs.Prelude.{◌≡◌, Some, None, MatchResult};
ghost use Rattle.net.specs.View.{table_of};
ghost use Rattle.runs.specs.Calls.{refusal, Does};
ghost use Rattle.runs.specs.Calls as calls;
ghost use Rattle.runs.specs.Law.{KeepsLaw};
ghost use Rattle.book.specs.Memories.{memory, seen, start_told};

use crate::book::Book;
use crate::clearing::begin;
use crate::fitting::{graded, sized};
use crate::station::in_net;
use kinds::kind::Kind;
use lists::list::CandidateList;
use net::star::Net;
use refusals::book::BookFault;

impl Book {
    // The tests of a start, in their order. They do not look at the list.
    fn may_start<K: Kind>(
        &self,
        net: &Net,
        grades: &[K::Grade],
        labels: &[K::Label],
        entries: &[u16],
        gateway: u16,
    ) -> Result<(), BookFault>
        ensures { let r = refusal (table_of net.now) (seen self.now grades.now labels.now entries.now) (calls.start gateway) in MatchResult result (λ _. r ≡ None) (λ f. r ≡ Some f) }
    {
        graded(net, grades.len())?;
        sized(net, labels.len(), entries.len())?;
        in_net(net, gateway)
    }

    // Begins anew: only the gateway has a label, and it waits.
    pub fn start<K: Kind, L: CandidateList<K>>(
        &mut self,
        net: &Net,
        grades: &[K::Grade],
        labels: &mut [K::Label],
        entries: &mut [u16],
        list: &mut L,
        gateway: u16,
    ) -> Result<(), BookFault>
        ensures does { Does K.Kind L.CandidateList (table_of net.now) (memory self.old grades.now labels.old entries.old list.old) (calls.start gateway) (start_told result) (memory self.new grades.now labels.new entries.new list.new) }
        ensures law { KeepsLaw K.Kind L.CandidateList (table_of net.now) (memory self.old grades.now labels.old entries.old list.old) (calls.start gateway) (start_told result) (memory self.new grades.now labels.new entries.new list.new) }
    {
        self.may_start::<K>(net, grades, labels, entries, gateway)?;
        begin::<K>(labels, entries, gateway);
        list.empty();
        list.enter(gateway, labels)?;
        *self = Book {
            started: true,
            gateway,
        };
        Ok(())
    }
}
