// The grade of a way that an installer proposes.
ghost use Rattle.std.specs.Prelude.{◌≡◌, Some};
ghost use Rattle.paths.specs.Answer.{not_path};
ghost use Rattle.net.specs.View.{table_of};
ghost use Rattle.site.specs.Ways.{beginning, Faulted, Proposed};

use answers::fault::WayFault;
use kinds::kind::Kind;
use net::star::Net;
use paths::grade::{NotPath, grade_path};

// Where a way begins: at the tail of its first link, or at station 0 where it has none.
fn beginning_of(net: &Net, way: &[u16]) -> u16
    ensures { result ≡ beginning (table_of net.now) way.now }
{
    match way {
        [first, ..] => net.tail(*first).unwrap_or(0),
        [] => 0,
    }
}

// What is wrong with a way, by its links.
fn fault_of(net: &Net, count: usize, way: &[u16], found: NotPath) -> WayFault
    requires { not_path (table_of net.now) count (beginning (table_of net.now) way.now) way.now ≡ Some found }
    ensures { Faulted (table_of net.now) count way.now result }
{
    match found {
        NotPath::Grades => WayFault::Grades(count, usize::from(net.links())),
        NotPath::NoStation => unreachable!(),
        NotPath::NoLink(i) => WayFault::NoLink(way[i]),
        NotPath::Parted(i) => WayFault::Parted(way[i], way[i - 1]),
    }
}

// The grade of a way that an installer proposes.
pub(crate) fn propose<K: Kind>(
    net: &Net,
    grades: &[K::Grade],
    way: &[u16],
) -> Result<K::Label, WayFault>
    ensures { Proposed K.Kind (table_of net.now) grades.now way.now result }
{
    // A match, since a closure for `map_err` would have to say again what `fault_of` requires and ensures.
    match grade_path::<K>(net, grades, beginning_of(net, way), way) {
        Ok(label) => Ok(label),
        Err(found) => Err(fault_of(net, grades.len(), way, found)),
    }
}
