// What a candidate list is.
ghost use Rattle.std.specs.Prelude.{◌≡◌, ℕ, ◌<◌, ◌≤◌, Bool, List, if◌then◌else◌, Ok, Err, Option};
ghost use Rattle.refusals.specs.declared.list.ListFault.TheVariants.{Station};
ghost use Rattle.lists.specs.Meaning.{count_below, ListLaws};

use kinds::kind::Kind;
use refusals::list::ListFault;

// What entering a station comes to.
#[derive(Clone, Copy, Debug, PartialEq, Eq)]
pub enum Entered {
    // It did not wait, and does now.
    New,
    // It waited already.
    Waiting,
}

// A candidate list: a set of stations below 1,024 that wait, and an order in which they are picked. A station waits from its entering
// until it is picked or the list is emptied. Labels are handed over at each step, the label of station s at index s; there may be fewer than
// stations. What is known of an unnamed list is `waits`, the set, and by which of its steps it was changed.
pub trait CandidateList<K: Kind> {
    // Which stations wait.
    ghost waits: { Self → ℕ → Bool };

    // The step from a list to the list after emptying.
    ghost emptied: { Self → Self → Type 0 };

    // The step by which a station below 1,024 enters, with the labels handed over.
    ghost entered: { Self → ℕ → List K.Label → Self → Type 0 };

    // The step by which a pick, with the labels handed over, gives its answer.
    ghost picked: { Self → List K.Label → Option ℕ → Self → Type 0 };

    fn empty(&mut self)
        ensures { emptied self.old self.new };

    // Adds a station. One of 1,024 or more is refused, and nothing is written.
    fn enter(&mut self, station: u16, labels: &[K::Label]) -> Result<Entered, ListFault>
        ensures enters { station < 1024 → entered self.old station labels.now self.new }
        ensures answers { station < 1024 → result ≡ Ok (if waits self.old station then Entered.Waiting else Entered.New) }
        ensures refuses { 1024 ≤ station → (result ≡ Err Station) × (self.new ≡ self.old) };

    // A waiting station, which then no longer waits, or nothing where none waits.
    fn pick(&mut self, labels: &[K::Label]) -> Option<u16>
        ensures { picked self.old labels.now result self.new };

    // How many stations wait.
    fn waiting(&self) -> u16
        ensures { result ≡ count_below (waits self.now) 1024 };

    ghost lawful: { ListLaws waits emptied entered picked };
}
