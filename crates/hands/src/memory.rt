// Carrying out the commands that read or overwrite the lists that are held.
ghost use Rattle.std.specs.Prelude.{◌≡◌, ◌<◌, ◌≤◌, length, map, IfOk, MatchResult, slice_set};
ghost use Rattle.answers.specs.Outcomes.{Does, Came};
ghost use Rattle.script.specs.Words.{word_bytes};
ghost use Rattle.hands.specs.Acts.{labels_listed, entries_listed, poked, resized, resizes};
ghost use Rattle.hands.specs.Asks.{poke_asked, resize_asked};
ghost use Rattle.hands.specs.Held.{held_by};

use crate::ask::{Element, Poking, Resizing, poke_asked, resize_asked};
use crate::holding::Holding;
use answers::answer::{Answer, Label, ToLabel};
use answers::trouble::{Trouble, Usage};
use answers::values::Values;
use kinds::kind::Kind;
use reading::read::Readable;
use reading::single::Single;
use std::alloc::{AllocError, Global};
use walks::entry::UNLABELLED;

// Overwrites the element at an index; where the list does not reach so far, tells how many elements there are.
fn put<T: Copy>(list: &mut [T], element: Element<T>) -> Result<(), usize>
    ensures { MatchResult result (λ _. (element.index < length list.old) × (list.new ≡ slice_set list.old element.index element.value)) (λ n. (n ≡ length list.old) × (n ≤ element.index) × (list.new ≡ list.old)) }
{
    let i = usize::from(element.index);
    if i >= list.len() {
        return Err(list.len());
    }
    list[i] = element.value;
    Ok(())
}

// A list of so many elements: those of the old one, as far as it reaches, and then x.
fn resized<T: Copy>(heap: Global, old: &[T], x: T, count: u16) -> Result<Vec<T>, AllocError>
    ensures { IfOk result (λ v. v.items ≡ resized count x old.now) }
{
    let mut out = Vec::with_capacity(heap, usize::from(count))?;
    for i in 0..count {
        out.push(old.get(usize::from(i)).copied().unwrap_or(x))?;
    }
    Ok(out)
}

// Labels of one kind, as an answer has them.
fn told<L: ToLabel>(heap: Global, labels: &[L]) -> Result<Vec<Label>, AllocError>
    ensures { IfOk result (λ v. v.items ≡ map L.label labels.now) }
{
    labels.iter().map(|label| label.to_label()).collect(heap)
}

impl<K: Kind> Holding<K>
where
    K::Label: ToLabel,
{
    // `labels`: the labels of all stations.
    pub fn labels(&self, heap: Global, words: &[&[u8]]) -> Result<Answer, Trouble>
        ensures { Came (labels_listed K.Label.label (held_by self.now) (word_bytes words.now)) (held_by self.now) result (held_by self.now) }
    {
        let [_] = words else {
            return Err(Trouble::Usage(Usage::Labels));
        };
        Ok(Answer::Labels(Values::from(told(heap, self.labels.as_slice())?)))
    }
}

impl<K: Kind> Holding<K> {
    // `entries`: the entries of all stations.
    pub fn entries(&self, words: &[&[u8]]) -> Result<Answer, Trouble>
        ensures { Came (entries_listed (held_by self.now) (word_bytes words.now)) (held_by self.now) result (held_by self.now) }
    {
        let [_] = words else {
            return Err(Trouble::Usage(Usage::Entries));
        };
        Ok(Answer::Entries(Values::from(self.entries.clone()?)))
    }
}

impl<K: Kind> Holding<K>
where
    K::Label: Readable,
    K::Grade: Readable,
{
    // `poke`: overwrites one element of the labels, the entries or the grades.
    pub fn poke(&mut self, words: &[&[u8]]) -> Result<Answer, Trouble>
        ensures { Does (poked (held_by self.old) (poke_asked K.Label.Readable K.Grade.Readable (word_bytes words.now))) result (held_by self.new) }
    {
        match poke_asked(words)? {
            Poking::Label(label) => {
                put(self.labels.as_mut_slice(), label).map_err(Trouble::NoLabel)?;
            }
            Poking::Entry(entry) => {
                put(self.entries.as_mut_slice(), entry).map_err(Trouble::NoEntry)?;
            }
            Poking::Grade(grade) => {
                put(self.grades.as_mut_slice(), grade).map_err(Trouble::NoGrade)?;
            }
        }
        Ok(Answer::Poked)
    }
}

impl<K: Kind> Holding<K>
where
    K::Grade: Single,
{
    // `resize`: the labels, the entries or the grades have another length.
    pub fn resize(&mut self, heap: Global, words: &[&[u8]]) -> Result<Answer, Trouble>
        ensures { Came (resizes K.Kind K.Grade.zero (held_by self.old) (resize_asked (word_bytes words.now))) (held_by self.old) result (held_by self.new) }
    {
        match resize_asked(words)? {
            Resizing::Labels(count) => {
                self.labels = resized(heap, self.labels.as_slice(), K::start(), count)?;
            }
            Resizing::Entries(count) => {
                self.entries = resized(heap, self.entries.as_slice(), UNLABELLED, count)?;
            }
            Resizing::Grades(count) => {
                self.grades = resized(heap, self.grades.as_slice(), K::Grade::zero(), count)?;
            }
        }
        Ok(Answer::Resized)
    }
}
