// Values that an answer lists.
ghost use Rattle.std.specs.Prelude.{◌≡◌, length};
ghost use Rattle.answers.specs.Listing.{spaced_items};

use std::fmt;
use std::marker::Model;

// Values in their order. Contracts see the list of them alone, and neither its capacity nor where it lies, so that a definition can say which answer comes.
#[derive(Clone, Debug, Drop)]
pub struct Values<T> {
    items: Vec<T>,
}

impl<T> Model for Values<T> {
    ghost use Rattle.std.specs.Prelude.{List};

    ghost Value = { List T };

    ghost view = { λ v. v.items.items };
}

impl<T> Values<T> {
    pub fn len(&self) -> usize
        ensures { result ≡ length self.now }
    {
        self.items.len()
    }
}

impl<T> From<Vec<T>> for Values<T> {
    ghost from_gives = { λ v r. r ≡ v.items };

    fn from(items: Vec<T>) -> Values<T> {
        Values { items }
    }
}

// Each value after a blank.
impl<T: fmt::Display> fmt::Display for Values<T> {
    ghost output = { λ v. spaced_items T.output v };

    fn fmt<W: fmt::Write>(&self, f: &mut fmt::Formatter<W>) -> fmt::Result {
        for value in self.items.as_slice() {
            write!(f, " {value}")?;
        }
        Ok(())
    }
}
