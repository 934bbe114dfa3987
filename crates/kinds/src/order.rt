// What holds of every kind, from its laws alone.
ghost use Rattle.std.specs.Prelude.{◌↔◌, IsTrue};
ghost use Rattle.kinds.specs.Order.{Better};

use crate::kind::Kind;

// Whether `a` is better than `b`: at least as good, and not the same.
pub fn better<K: Kind>(a: K::Label, b: K::Label) -> bool
    ensures { IsTrue result ↔ (Better K.Kind a b) }
{
    !K::at_least_as_good(b, a)
}
