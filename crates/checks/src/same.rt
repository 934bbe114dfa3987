// Whether two labels are the same.
ghost use Rattle.std.specs.Prelude.{◌≡◌};
ghost use Rattle.plans.specs.Faults.{same};

use kinds::kind::Kind;

// Each is at least as good as the other.
pub(crate) fn same<K: Kind>(a: K::Label, b: K::Label) -> bool
    ensures { result ≡ same K.Kind a b }
{
    K::at_least_as_good(a, b) && K::at_least_as_good(b, a)
}
