// The grade of a path, under every kind. Indices are cast: `usize::from` at each is no plainer, and a step more in every proof.
ghost use Rattle.std.specs.Prelude.{◌≡◌, length, Some, MatchResult};
ghost use Rattle.net.specs.Table.{link_count};
ghost use Rattle.net.specs.View.{table_of};
ghost use Rattle.paths.specs.Answer.{not_path};
ghost use Rattle.paths.specs.Grade.{path_grade};
ghost use Rattle.paths.specs.Path.{PathFrom};

use super::leaves::leaves;
use kinds::kind::Kind;
use net::star::Net;

// Why a list of links has no grade as a path from a station.
#[derive(Clone, Copy, Debug, PartialEq, Eq)]
pub enum NotPath {
    // The grades are not one per link.
    Grades,
    // There is no such station to begin at.
    NoStation,
    // At this place of the list stands no link of the net.
    NoLink(usize),
    // The link at this place does not begin where the path has come to.
    Parted(usize),
}

// The grade of the path that begins at station `from` and goes over the links of `way` in their order.
// Net and grades are no struct: the grades are a list beside the net, of any length, and this refuses one that does not fit.
pub fn grade_path<K: Kind>(
    net: &Net,
    grades: &[K::Grade],
    from: u16,
    way: &[u16],
) -> Result<K::Label, NotPath>
    ensures path { MatchResult result (λ _. (length grades.now ≡ link_count (table_of net.now)) × PathFrom (table_of net.now) from way.now) (λ _. length grades.now ≡ link_count (table_of net.now) → ¬ PathFrom (table_of net.now) from way.now) }
    ensures told { MatchResult result (λ x. path_grade K.Kind grades.now way.now ≡ Some x) (λ e. not_path (table_of net.now) (length grades.now) from way.now ≡ Some e) }
{
    if grades.len() != usize::from(net.links()) {
        return Err(NotPath::Grades);
    }
    if from >= net.stations() {
        return Err(NotPath::NoStation);
    }
    let mut at = from;
    let mut label = K::start();
    for (i, &link) in way.iter().enumerate() {
        let head = net.head(link).ok_or(NotPath::NoLink(i))?;
        if !leaves(net, link, at) {
            return Err(NotPath::Parted(i));
        }
        label = K::carry(label, grades[link as usize]);
        at = head;
    }
    Ok(label)
}
