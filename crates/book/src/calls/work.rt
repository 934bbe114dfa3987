// Work.
ghost use Rattle.net.specs.View.{table_of};
ghost use Rattle.runs.specs.Calls.{Does};
ghost use Rattle.runs.specs.Calls as calls;
ghost use Rattle.runs.specs.Law.{KeepsLaw};
ghost use Rattle.book.specs.Memories.{memory, work_told};

use crate::book::Book;
use crate::fitting::{graded, sized};
use crate::work::work;
use kinds::kind::Kind;
use lists::list::CandidateList;
use net::star::Net;
use refusals::book::BookFault;

impl Book {
    // Picks stations and goes through the links of each, until so many picks are made or none waits. Tells how many it made, and how many stations still wait.
    pub fn work<K: Kind, L: CandidateList<K>>(
        &self,
        net: &Net,
        grades: &[K::Grade],
        labels: &mut [K::Label],
        entries: &mut [u16],
        list: &mut L,
        allowed: u16,
    ) -> Result<(u16, u16), BookFault>
        ensures does { Does K.Kind L.CandidateList (table_of net.now) (memory self.now grades.now labels.old entries.old list.old) (calls.work allowed) (work_told result) (memory self.now grades.now labels.new entries.new list.new) }
        ensures law { KeepsLaw K.Kind L.CandidateList (table_of net.now) (memory self.now grades.now labels.old entries.old list.old) (calls.work allowed) (work_told result) (memory self.now grades.now labels.new entries.new list.new) }
    {
        graded(net, grades.len())?;
        sized(net, labels.len(), entries.len())?;
        self.under_way()?;
        work::<K, L>(net, self.gateway, grades, labels, entries, list, allowed)
    }
}
