// Why a proposed way has no grade.
ghost use Rattle.std.specs.Prelude.{Some};
ghost use Rattle.answers.specs.Texts.{way_text};

use std::error::Error;
use std::fmt;

#[derive(Clone, Copy, Debug, PartialEq, Eq)]
pub enum WayFault {
    // There are so many grades for so many links.
    Grades(usize, usize),
    // There is no such link.
    NoLink(u16),
    // The first link does not begin where the second, which stands before it, ends.
    Parted(u16, u16),
}

impl fmt::Display for WayFault {
    ghost output = { λ x. Some (way_text x) };

    fn fmt<W: fmt::Write>(&self, f: &mut fmt::Formatter<W>) -> fmt::Result {
        match self {
            WayFault::Grades(grades, links) => {
                write!(f, "not a path: {grades} grades for {links} links")
            }
            WayFault::NoLink(link) => write!(f, "not a path: link {link} is not in the net"),
            WayFault::Parted(link, before) => write!(
                f,
                "not a path: link {link} does not begin where link {before} ends"
            ),
        }
    }
}

impl Error for WayFault {}
