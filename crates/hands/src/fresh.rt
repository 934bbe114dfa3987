// What is held beside a new net.
ghost use Rattle.std.specs.Prelude.{◌≡◌, replicate, IfOk};
ghost use Rattle.hands.specs.Held.{held_by, new_held};

use crate::holding::Holding;
use book::book::Book;
use choice::any::AnyList;
use kinds::kind::Kind;
use lists::first_in::FirstIn;
use reading::single::Single;
use std::alloc::{AllocError, Global};
use walks::entry::UNLABELLED;

// A list that holds one value so many times.
pub(crate) fn repeated<T: Copy>(heap: Global, x: T, count: u16) -> Result<Vec<T>, AllocError>
    ensures { IfOk result (λ v. v.items ≡ replicate count x) }
{
    let mut out = Vec::with_capacity(heap, usize::from(count))?;
    // A loop, since `vec!` clones, and of a type that is only `Copy` it is not known that a clone is the same.
    for _ in 0..count {
        out.push(x)?;
    }
    Ok(out)
}

impl<K: Kind> Holding<K>
where
    K::Grade: Single,
{
    // For so many stations and links: the book is not started, every station has the start label and no entry, every link grade 0, and the list is first-in,
    // without a station.
    pub fn new(heap: Global, stations: u16, links: u16) -> Result<Holding<K>, AllocError>
        ensures { IfOk result (λ h. held_by h ≡ new_held K.Kind K.Grade.zero stations links) }
    {
        Ok(Holding {
            book: Book::new(),
            grades: repeated(heap, K::Grade::zero(), links)?,
            labels: repeated(heap, K::start(), stations)?,
            entries: repeated(heap, UNLABELLED, stations)?,
            list: AnyList::FirstIn(FirstIn::new()),
        })
    }
}
