// Carrying out the calls of the book on what is held.
ghost use Rattle.std.specs.Prelude.{◌≡◌};
ghost use Rattle.answers.specs.declared.verb.CallVerb.{CallVerb};
ghost use Rattle.net.specs.View.{table_of};
ghost use Rattle.script.specs.Words.{word_bytes};
ghost use Rattle.hands.specs.Calls.{CallLine, Lawful};
ghost use Rattle.hands.specs.Held.{memory_of};

use crate::ask::{NotAsked, Regrading, Routing, number_asked, regrade_asked, route_asked};
use crate::fresh::repeated;
use crate::holding::Holding;
use answers::answer::{Answer, Reached, ToLabel};
use answers::trouble::{Trouble, Usage};
use answers::values::Values;
use book::asked;
use choice::any::AnyList;
use kinds::kind::Kind;
use net::star::Net;
use reading::single::Single;
use refusals::told::Fault;
use std::alloc::Global;

// What a station has that was reached, as an answer has it.
fn shown<L: ToLabel>(reached: asked::Reached<L>) -> Reached
    ensures { result ≡ record { label = L.label reached.label; entry = reached.entry } }
{
    Reached {
        label: reached.label.to_label(),
        entry: reached.entry,
    }
}

impl<K: Kind> Holding<K>
where
    K::Label: ToLabel,
    K::Grade: Single,
{
    // `start`: the book begins anew from a gateway.
    pub fn start(&mut self, net: &Net, words: &[&[u8]]) -> Result<Answer, Trouble>
        ensures { CallLine K.Label.label (Lawful K.Kind (table_of net.now)) K.Grade.Spelt.Readable K.Grade.makes CallVerb.Start (memory_of self.old) (word_bytes words.now) result (memory_of self.new) }
    {
        let gateway = number_asked(words, Usage::Start)?;
        match self.book.start::<K, AnyList<K>>(
            net,
            self.grades.as_slice(),
            self.labels.as_mut_slice(),
            self.entries.as_mut_slice(),
            &mut self.list,
            gateway,
        ) {
            Ok(()) => Ok(Answer::Started),
            Err(fault) => Ok(Answer::Refused(fault.told())),
        }
    }

    // `work`: so many picks at most, with the links of each station that is picked.
    pub fn work(&mut self, net: &Net, words: &[&[u8]]) -> Result<Answer, Trouble>
        ensures { CallLine K.Label.label (Lawful K.Kind (table_of net.now)) K.Grade.Spelt.Readable K.Grade.makes CallVerb.Work (memory_of self.old) (word_bytes words.now) result (memory_of self.new) }
    {
        let allowed = number_asked(words, Usage::Work)?;
        match self.book.work::<K, AnyList<K>>(
            net,
            self.grades.as_slice(),
            self.labels.as_mut_slice(),
            self.entries.as_mut_slice(),
            &mut self.list,
            allowed,
        ) {
            Ok((picks, waiting)) => Ok(Answer::Worked(picks, waiting)),
            Err(fault) => Ok(Answer::Refused(fault.told())),
        }
    }

    // `regrade`: a link has another grade.
    pub fn regrade(&mut self, net: &Net, words: &[&[u8]]) -> Result<Answer, Trouble>
        ensures { CallLine K.Label.label (Lawful K.Kind (table_of net.now)) K.Grade.Spelt.Readable K.Grade.makes CallVerb.Regrade (memory_of self.old) (word_bytes words.now) result (memory_of self.new) }
    {
        let Regrading { link, grade } = match regrade_asked(words) {
            Ok(regrading) => regrading,
            Err(NotAsked::Refused(fault)) => return Ok(Answer::Refused(fault.told())),
            Err(NotAsked::Troubled(trouble)) => return Err(trouble),
        };
        match self.book.regrade::<K, AnyList<K>>(
            net,
            self.grades.as_mut_slice(),
            self.labels.as_mut_slice(),
            self.entries.as_mut_slice(),
            &mut self.list,
            link,
            grade,
        ) {
            Ok((lost, new)) => Ok(Answer::Regraded(lost, new)),
            Err(fault) => Ok(Answer::Refused(fault.told())),
        }
    }

    // `ask`: what is known of a station.
    pub fn ask(&self, net: &Net, words: &[&[u8]]) -> Result<Answer, Trouble>
        ensures { CallLine K.Label.label (Lawful K.Kind (table_of net.now)) K.Grade.Spelt.Readable K.Grade.makes CallVerb.Ask (memory_of self.now) (word_bytes words.now) result (memory_of self.now) }
    {
        let station = number_asked(words, Usage::Ask)?;
        match self.book.ask::<K, AnyList<K>>(
            net,
            self.grades.as_slice(),
            self.labels.as_slice(),
            self.entries.as_slice(),
            &self.list,
            station,
        ) {
            Ok(asked) => Ok(Answer::Asked(asked.reached.map(shown), asked.waiting)),
            Err(fault) => Ok(Answer::Refused(fault.told())),
        }
    }

    // `route`: the links of the way from the gateway to a station.
    pub fn route(&self, heap: Global, net: &Net, words: &[&[u8]]) -> Result<Answer, Trouble>
        ensures { CallLine K.Label.label (Lawful K.Kind (table_of net.now)) K.Grade.Spelt.Readable K.Grade.makes CallVerb.Route (memory_of self.now) (word_bytes words.now) result (memory_of self.now) }
    {
        let Routing { station, places } = route_asked(words)?;
        let mut links = repeated(heap, 0, places)?;
        match self.book.route::<K, AnyList<K>>(
            net,
            self.grades.as_slice(),
            self.labels.as_slice(),
            self.entries.as_slice(),
            &self.list,
            station,
            links.as_mut_slice(),
        ) {
            Ok(count) => {
                links.truncate(usize::from(count));
                Ok(Answer::Route(Values::from(links)))
            }
            Err(fault) => Ok(Answer::Refused(fault.told())),
        }
    }
}
