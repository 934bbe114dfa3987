// Checking the labels and entries that are held.
ghost use Rattle.answers.specs.declared.trouble.Usage.{Usage};
ghost use Rattle.answers.specs.Outcomes.{Does};
ghost use Rattle.net.specs.View.{table_of};
ghost use Rattle.script.specs.Words.{word_bytes};
ghost use Rattle.hands.specs.Acts.{checked};
ghost use Rattle.hands.specs.Asks.{number_asked};
ghost use Rattle.hands.specs.Held.{held_by};

use crate::ask::number_asked;
use crate::holding::Holding;
use answers::answer::Answer;
use answers::trouble::{Trouble, Usage};
use checks::check::check;
use kinds::kind::Kind;
use net::star::Net;
use refusals::told::Fault;

impl<K: Kind> Holding<K> {
    // `check`: whether labels and entries are a tree of best paths from the gateway that the line names. The book is not asked, started or not.
    pub fn check(&self, net: &Net, words: &[&[u8]]) -> Result<Answer, Trouble>
        ensures { Does (checked K.Kind (table_of net.now) (held_by self.now) (number_asked Usage.Check (word_bytes words.now))) result (held_by self.now) }
    {
        let gateway = number_asked(words, Usage::Check)?;
        match check::<K>(
            net,
            self.grades.as_slice(),
            gateway,
            self.labels.as_slice(),
            self.entries.as_slice(),
        ) {
            Ok(()) => Ok(Answer::Checked),
            Err(fault) => Ok(Answer::Refused(fault.told())),
        }
    }
}
