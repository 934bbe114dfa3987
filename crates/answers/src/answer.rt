// What commands answer.
ghost use Rattle.std.specs.Prelude.{◌≡◌, Some};
ghost use Rattle.answers.specs.Texts.{label_text, answer_text};

use crate::values::Values;
use crate::verb::KindName;
use choice::list_name::ListName;
use kinds::airtime::Airtime;
use kinds::chance::Chance;
use kinds::margin::Margin;
use lists::list::Entered;
use refusals::told::Told;
use std::fmt;

// A label, in the kind that the site has.
#[derive(Clone, Copy, Debug, PartialEq, Eq)]
pub enum Label {
    Airtime(Airtime),
    Chance(Chance),
    Margin(Margin),
}

impl fmt::Display for Label {
    ghost output = { λ x. Some (label_text x) };

    fn fmt<W: fmt::Write>(&self, f: &mut fmt::Formatter<W>) -> fmt::Result {
        // An arm for each kind, since each has a type of its own.
        match self {
            Label::Airtime(x) => write!(f, "{x}"),
            Label::Chance(x) => write!(f, "{x}"),
            Label::Margin(x) => write!(f, "{x}"),
        }
    }
}

// A label of one kind, as an answer has it.
// No `Into<Label>`: that promises a relation, and the definitions name the label.
pub trait ToLabel: Copy {
    ghost use Rattle.answers.specs.declared.answer.Label.{Label};

    ghost label: { Self → Label };

    fn to_label(self) -> Label
        ensures { result ≡ label self };
}

impl ToLabel for Airtime {
    ghost use Rattle.answers.specs.declared.answer.Label.{Label};

    ghost label = { λ x. Label.Airtime x };

    fn to_label(self) -> Label {
        Label::Airtime(self)
    }
}

impl ToLabel for Chance {
    ghost use Rattle.answers.specs.declared.answer.Label.{Label};

    ghost label = { λ x. Label.Chance x };

    fn to_label(self) -> Label {
        Label::Chance(self)
    }
}

impl ToLabel for Margin {
    ghost use Rattle.answers.specs.declared.answer.Label.{Label};

    ghost label = { λ x. Label.Margin x };

    fn to_label(self) -> Label {
        Label::Margin(self)
    }
}

// What a station has that was reached.
#[derive(Clone, Copy, Debug, PartialEq, Eq)]
pub struct Reached {
    pub label: Label,
    pub entry: u16,
}

// What a command that was carried out, or refused, answers. It is not `Copy`, since it owns the values that it lists.
#[derive(Clone, Debug, Drop)]
pub enum Answer {
    // So many stations and links.
    Net(u16, u16),
    Kind(KindName),
    // So many grades.
    Grades(usize),
    // The list that was chosen.
    List(ListName),
    Path(Label),
    Started,
    // So many picks were made, and so many stations still wait.
    Worked(u16, u16),
    // So many stations lost their label, and so many were new to the list.
    Regraded(u16, u16),
    // What the station has, if it was reached, and how many stations wait.
    Asked(Option<Reached>, u16),
    // The links of the route.
    Route(Values<u16>),
    // Labels and entries are a tree of best paths.
    Checked,
    // The labels of all stations.
    Labels(Values<Label>),
    // The entries of all stations.
    Entries(Values<u16>),
    // One element of a list was overwritten.
    Poked,
    // A list has another length.
    Resized,
    Entered(Entered),
    // The station that was picked, if one waited.
    Picked(Option<u16>),
    Emptied,
    // So many stations wait.
    Waiting(u16),
    Refused(Told),
}

// The line that answers a command.
impl fmt::Display for Answer {
    ghost output = { λ x. Some (answer_text x) };

    fn fmt<W: fmt::Write>(&self, f: &mut fmt::Formatter<W>) -> fmt::Result {
        match self {
            Answer::Net(stations, links) => write!(f, "net ok {stations} {links}"),
            Answer::Kind(kind) => write!(f, "kind {kind}"),
            Answer::Grades(count) => write!(f, "grades {count}"),
            Answer::List(name) => write!(f, "list {name}"),
            Answer::Path(label) => write!(f, "path {label}"),
            Answer::Started => f.write_str("start ok"),
            Answer::Worked(picks, waiting) => write!(f, "work {picks} {waiting}"),
            Answer::Regraded(lost, new) => write!(f, "regrade {lost} {new}"),
            // By copy, and not by one pattern: the borrow checker does not cover one that reaches into a label.
            Answer::Asked(reached, waiting) => match *reached {
                Some(reached) => write!(f, "ask {} {} {waiting}", reached.label, reached.entry),
                None => write!(f, "ask none {waiting}"),
            },
            Answer::Route(links) => write!(f, "route {}:{links}", links.len()),
            Answer::Checked => f.write_str("check ok"),
            Answer::Labels(labels) => write!(f, "labels{labels}"),
            Answer::Entries(entries) => write!(f, "entries{entries}"),
            Answer::Poked => f.write_str("poke"),
            Answer::Resized => f.write_str("resize"),
            Answer::Entered(Entered::New) => f.write_str("enter new"),
            Answer::Entered(Entered::Waiting) => f.write_str("enter waiting"),
            Answer::Picked(Some(station)) => write!(f, "pick {station}"),
            Answer::Picked(None) => f.write_str("pick none"),
            Answer::Emptied => f.write_str("empty"),
            Answer::Waiting(count) => write!(f, "waiting {count}"),
            Answer::Refused(told) => write!(f, "{told}"),
        }
    }
}
