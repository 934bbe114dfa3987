// The candidate lists by their numbers and names.
ghost use Rattle.std.specs.Prelude.{◌≡◌, None, Some, codes, MatchResult};
ghost use Rattle.choice.specs.Names.{list_number, list_numbered, list_word, list_named};

use std::error::Error;
use std::fmt;

#[derive(Clone, Copy, Debug, PartialEq, Eq)]
pub enum ListName {
    FirstIn,
    TwoEnded,
    SmallLabel,
    Threshold,
    Bucket,
}

// A number or a word that stands for no list.
#[derive(Clone, Copy, Debug, PartialEq, Eq)]
pub struct UnknownList;

impl ListName {
    const ALL: [ListName; 5] = [
        ListName::FirstIn,
        ListName::TwoEnded,
        ListName::SmallLabel,
        ListName::Threshold,
        ListName::Bucket,
    ];

    // The name as a text, beside `Display`: this cannot fail, as writing can.
    pub fn word(self) -> &'static str
        ensures { result.now ≡ list_word self }
    {
        match self {
            ListName::FirstIn => "first-in",
            ListName::TwoEnded => "two-ended",
            ListName::SmallLabel => "small-label",
            ListName::Threshold => "threshold",
            ListName::Bucket => "bucket",
        }
    }
}

impl fmt::Display for ListName {
    ghost output = { λ name. Some (list_word name) };

    fn fmt<W: fmt::Write>(&self, f: &mut fmt::Formatter<W>) -> fmt::Result {
        f.write_str(self.word())
    }
}

impl From<ListName> for u8 {
    ghost from_gives = { λ name n. n ≡ list_number name };

    fn from(name: ListName) -> u8 {
        name as u8
    }
}

impl TryFrom<u8> for ListName {
    type Error = UnknownList;

    ghost try_from_gives = { λ n r. MatchResult r (λ name. list_numbered n ≡ Some name) (λ _. list_numbered n ≡ None) };

    fn try_from(number: u8) -> Result<ListName, UnknownList> {
        match number {
            0 => Ok(ListName::FirstIn),
            1 => Ok(ListName::TwoEnded),
            2 => Ok(ListName::SmallLabel),
            3 => Ok(ListName::Threshold),
            4 => Ok(ListName::Bucket),
            _ => Err(UnknownList),
        }
    }
}

impl TryFrom<&[u8]> for ListName {
    type Error = UnknownList;

    ghost try_from_gives = { λ word r. MatchResult r (λ name. list_named word.now ≡ Some name) (λ _. list_named word.now ≡ None) };

    fn try_from(word: &[u8]) -> Result<ListName, UnknownList> {
        ListName::ALL
            .iter()
            .find(|name| word == name.word().as_bytes())
            .copied()
            .ok_or(UnknownList)
    }
}

impl fmt::Display for UnknownList {
    ghost output = { λ _. Some (codes "no such candidate list") };

    fn fmt<W: fmt::Write>(&self, f: &mut fmt::Formatter<W>) -> fmt::Result {
        f.write_str("no such candidate list")
    }
}

impl Error for UnknownList {}
