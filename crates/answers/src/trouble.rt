// Why a line is not carried out.
ghost use Rattle.std.specs.Prelude.{◌≡◌, Some};
ghost use Rattle.answers.specs.declared.trouble.Trouble.TheVariants.{Memory};
ghost use Rattle.answers.specs.Texts.{bounds_text, usage_text, trouble_text, error_text};

use crate::fault::WayFault;
use std::alloc::{AllocError, AllocFailed};
use std::error::Error;
use std::fmt;

// Where a number of a script has to lie.
#[derive(Clone, Copy, Debug, PartialEq, Eq)]
pub enum Bounds {
    // 0 to 65,535.
    Short,
    // 0 to 4,294,967,295.
    Long,
    // -128 to 127.
    Decibels,
}

impl fmt::Display for Bounds {
    ghost output = { λ x. Some (bounds_text x) };

    fn fmt<W: fmt::Write>(&self, f: &mut fmt::Formatter<W>) -> fmt::Result {
        f.write_str(match self {
            Bounds::Short => "0 to 65535",
            Bounds::Long => "0 to 4294967295",
            Bounds::Decibels => "-128 to 127",
        })
    }
}

// Commands that take certain words and no others.
#[derive(Clone, Copy, Debug, PartialEq, Eq)]
pub enum Usage {
    List,
    Start,
    Work,
    Regrade,
    Ask,
    Route,
    Check,
    Labels,
    Entries,
    Poke,
    Resize,
    Enter,
    Pick,
    Empty,
    Waiting,
}

impl fmt::Display for Usage {
    ghost output = { λ x. Some (usage_text x) };

    fn fmt<W: fmt::Write>(&self, f: &mut fmt::Formatter<W>) -> fmt::Result {
        f.write_str(match self {
            Usage::List => {
                "list takes first-in, two-ended, small-label, threshold <step> or bucket <width> <span>"
            }
            Usage::Start => "start takes <gateway>",
            Usage::Work => "work takes <allowed>",
            Usage::Regrade => "regrade takes <link> <grade>",
            Usage::Ask => "ask takes <station>",
            Usage::Route => "route takes <station> <places>",
            Usage::Check => "check takes <gateway>",
            Usage::Labels => "labels takes no words",
            Usage::Entries => "entries takes no words",
            Usage::Poke => "poke takes label, entry or grade, then <index> <value>",
            Usage::Resize => "resize takes labels, entries or grades, then <count>",
            Usage::Enter => "enter takes <station> [handed]",
            Usage::Pick => "pick takes [handed]",
            Usage::Empty => "empty takes no words",
            Usage::Waiting => "waiting takes no words",
        })
    }
}

// Why a line of a script is not carried out.
#[derive(Clone, Copy, Debug, PartialEq, Eq)]
pub enum Trouble {
    // The first word is no command.
    Unknown,
    // There is no net yet.
    NoNet,
    // The word of this number, counted from 1, does not spell a number within the bounds.
    NotNumber(usize, Bounds),
    // Nothing parts starts and heads.
    NoSlash,
    // What should name a kind does not.
    NoKind,
    // The words after the command are not those that it takes.
    Usage(Usage),
    // There are only so many labels, entries or grades.
    NoLabel(usize),
    NoEntry(usize),
    NoGrade(usize),
    // The proposed links have no grade as a path.
    NotPath(WayFault),
    // There is not enough memory.
    Memory,
}

impl fmt::Display for Trouble {
    ghost output = { λ x. Some (trouble_text x) };

    fn fmt<W: fmt::Write>(&self, f: &mut fmt::Formatter<W>) -> fmt::Result {
        match self {
            Trouble::Unknown => f.write_str("unknown command"),
            Trouble::NoNet => f.write_str("no net yet"),
            Trouble::NotNumber(word, bounds) => {
                write!(f, "word {word} is not a number from {bounds}")
            }
            Trouble::NoSlash => f.write_str("net needs one / between starts and heads"),
            Trouble::NoKind => f.write_str("kind takes one of airtime, chance, margin"),
            Trouble::Usage(usage) => write!(f, "{usage}"),
            Trouble::NoLabel(count) => write!(f, "there are {count} labels"),
            Trouble::NoEntry(count) => write!(f, "there are {count} entries"),
            Trouble::NoGrade(count) => write!(f, "there are {count} grades"),
            Trouble::NotPath(fault) => write!(f, "{fault}"),
            Trouble::Memory => f.write_str("out of memory"),
        }
    }
}

impl Error for Trouble {}

// These are written out, since callers' clauses name the error that `?` makes: a derived `From` has no `from_gives`.
impl From<AllocError> for Trouble {
    ghost from_gives = { λ _ r. r ≡ Memory };

    fn from(_error: AllocError) -> Trouble {
        Trouble::Memory
    }
}

impl<T: Drop> From<AllocFailed<T>> for Trouble {
    ghost from_gives = { λ _ r. r ≡ Memory };

    fn from(_error: AllocFailed<T>) -> Trouble {
        Trouble::Memory
    }
}

// Why the line of this number was not carried out.
#[derive(Clone, Copy, Debug, PartialEq, Eq)]
pub struct Failed {
    pub line: u64,
    pub trouble: Trouble,
}

impl fmt::Display for Failed {
    ghost output = { λ x. Some (error_text x.line x.trouble) };

    fn fmt<W: fmt::Write>(&self, f: &mut fmt::Formatter<W>) -> fmt::Result {
        let Failed { line, trouble } = self;
        write!(f, "error line {line}: {trouble}")
    }
}

impl Error for Failed {}
