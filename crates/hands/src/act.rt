// Carrying out the commands on the candidate list that is held, and on the grades as a whole.
ghost use Rattle.std.specs.Prelude.{◌≡◌, drop};
ghost use Rattle.answers.specs.Outcomes.{Does, Came};
ghost use Rattle.reading.specs.Reading.{read_all};
ghost use Rattle.script.specs.Words.{word_bytes};
ghost use Rattle.hands.specs.Acts.{handed_over, regraded, chose, entered, picked, emptied, waited};
ghost use Rattle.hands.specs.Asks.{choice_asked, enter_asked, pick_asked};
ghost use Rattle.hands.specs.Held.{held_by};

use crate::ask::{Entering, NotAsked, choice_asked, enter_asked, pick_asked};
use crate::holding::Holding;
use answers::answer::Answer;
use answers::trouble::{Trouble, Usage};
use choice::make::make;
use kinds::kind::Kind;
use lists::list::CandidateList;
use reading::read::{Readable, read_rest};
use reading::single::Single;
use refusals::told::Fault;
use std::alloc::Global;

// The labels that are handed over: all, or the first so many.
fn handed_over<L>(labels: &[L], handed: Option<u16>) -> &[L]
    ensures { result.now ≡ handed_over handed labels.now }
{
    handed
        .and_then(|count| labels.get(..usize::from(count)))
        .unwrap_or(labels)
}

impl<K: Kind> Holding<K>
where
    K::Grade: Readable,
{
    // `grades`: the grades that the words spell, however many, take the place of those that are held.
    pub fn take_grades(&mut self, heap: Global, words: &[&[u8]]) -> Result<Answer, Trouble>
        ensures { Came (regraded (held_by self.old) (read_all K.Grade.Readable.reads K.Grade.Readable.bounds 2 (drop 1 (word_bytes words.now)))) (held_by self.old) result (held_by self.new) }
    {
        self.grades = read_rest(heap, words)?;
        Ok(Answer::Grades(self.grades.len()))
    }
}

impl<K: Kind> Holding<K>
where
    K::Grade: Single,
{
    // `list`: the list that is asked for, new and empty, takes the place of the one that is held.
    pub fn take_list(&mut self, words: &[&[u8]]) -> Result<Answer, Trouble>
        ensures { Does (chose K.Kind (held_by self.old) (choice_asked K.Grade.Spelt.reads K.Grade.Spelt.bounds K.Grade.makes (word_bytes words.now))) result (held_by self.new) }
    {
        let choice = match choice_asked(words) {
            Ok(choice) => choice,
            Err(NotAsked::Refused(fault)) => return Ok(Answer::Refused(fault.told())),
            // A trouble is the command's own error, and a refusal its answer.
            Err(NotAsked::Troubled(trouble)) => return Err(trouble),
        };
        match make::<K>(choice) {
            Ok(list) => {
                self.list = list;
                Ok(Answer::List(choice.name()))
            }
            Err(fault) => Ok(Answer::Refused(fault.told())),
        }
    }
}

impl<K: Kind> Holding<K> {
    // `enter`: a station enters the list that is held.
    pub fn enter(&mut self, words: &[&[u8]]) -> Result<Answer, Trouble>
        ensures { Does (entered K.Kind (held_by self.old) (enter_asked (word_bytes words.now))) result (held_by self.new) }
    {
        let Entering { station, handed } = enter_asked(words)?;
        let labels = handed_over(self.labels.as_slice(), handed);
        match self.list.enter(station, labels) {
            Ok(entered) => Ok(Answer::Entered(entered)),
            Err(fault) => Ok(Answer::Refused(fault.told())),
        }
    }

    // `pick`: takes a station from the list that is held.
    pub fn pick(&mut self, words: &[&[u8]]) -> Result<Answer, Trouble>
        ensures { Does (picked K.Kind (held_by self.old) (pick_asked (word_bytes words.now))) result (held_by self.new) }
    {
        let handed = pick_asked(words)?;
        let labels = handed_over(self.labels.as_slice(), handed);
        Ok(Answer::Picked(self.list.pick(labels)))
    }

    // `empty`: empties the list that is held.
    pub fn empty(&mut self, words: &[&[u8]]) -> Result<Answer, Trouble>
        ensures { Does (emptied K.Kind (held_by self.old) (word_bytes words.now)) result (held_by self.new) }
    {
        let [_] = words else {
            return Err(Trouble::Usage(Usage::Empty));
        };
        self.list.empty();
        Ok(Answer::Emptied)
    }

    // `waiting`: how many stations wait in the list that is held.
    pub fn waiting(&self, words: &[&[u8]]) -> Result<Answer, Trouble>
        ensures { Does (waited K.Kind (held_by self.now) (word_bytes words.now)) result (held_by self.now) }
    {
        let [_] = words else {
            return Err(Trouble::Usage(Usage::Waiting));
        };
        Ok(Answer::Waiting(self.list.waiting()))
    }
}
