// What a site holds beside its net, in one kind of grade.
ghost use Rattle.std.specs.Prelude.{◌≡◌};
ghost use Rattle.hands.specs.Held.{held_by};

use book::book::Book;
use choice::any::AnyList;
use kinds::kind::Kind;

// A book and its memory: the grades, labels and entries, of which there may be any number (that they are one per link or station is tested where they
// are used), and the candidate list.
#[derive(Drop)]
pub struct Holding<K: Kind> {
    pub(crate) book: Book,
    pub(crate) grades: Vec<K::Grade>,
    pub(crate) labels: Vec<K::Label>,
    pub(crate) entries: Vec<u16>,
    pub(crate) list: AnyList<K>,
}

impl<K: Kind> Holding<K> {
    pub fn grades(&self) -> &[K::Grade]
        ensures { result.now ≡ (held_by self.now).grades }
    {
        self.grades.as_slice()
    }
}
