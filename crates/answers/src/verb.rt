// Commands and kinds by their words.
ghost use Rattle.std.specs.Prelude.{◌≡◌, Some};
ghost use Rattle.std.specs.Option.{ok_or};
ghost use Rattle.answers.specs.declared.trouble.Trouble.TheVariants.{Unknown, NoKind};
ghost use Rattle.answers.specs.Texts.{kind_text};
ghost use Rattle.answers.specs.Verbs.{verb_of, kind_named};

use crate::trouble::Trouble;
use std::fmt;

// What a line asks for, by its first word.
#[derive(Clone, Copy, Debug, PartialEq, Eq)]
pub enum Verb {
    // A new site.
    Net,
    // Something of the site that is open.
    Site(SiteVerb),
}

// What is asked of an open site.
#[derive(Clone, Copy, Debug, PartialEq, Eq)]
pub enum SiteVerb {
    Kind,
    Path,
    // Something of what the site holds beside its net.
    Held(HeldVerb),
}

// What is asked of what a site holds beside its net.
#[derive(Clone, Copy, Debug, PartialEq, Eq)]
pub enum HeldVerb {
    Grades,
    List,
    // A call of the book.
    Call(CallVerb),
    Check,
    Labels,
    Entries,
    Poke,
    Resize,
    Enter,
    Pick,
    Empty,
    Waiting,
}

// The calls of the book.
#[derive(Clone, Copy, Debug, PartialEq, Eq)]
pub enum CallVerb {
    Start,
    Work,
    Regrade,
    Ask,
    Route,
}

// The kinds of grade, by their names in a script.
#[derive(Clone, Copy, Debug, PartialEq, Eq)]
pub enum KindName {
    Airtime,
    Chance,
    Margin,
}

impl TryFrom<&[u8]> for Verb {
    type Error = Trouble;

    ghost try_from_gives = { λ w r. r ≡ ok_or (verb_of w.now) Unknown };

    fn try_from(word: &[u8]) -> Result<Verb, Trouble> {
        match word {
            b"net" => Ok(Verb::Net),
            b"kind" => Ok(Verb::Site(SiteVerb::Kind)),
            b"grades" => Ok(Verb::Site(SiteVerb::Held(HeldVerb::Grades))),
            b"list" => Ok(Verb::Site(SiteVerb::Held(HeldVerb::List))),
            b"path" => Ok(Verb::Site(SiteVerb::Path)),
            b"start" => Ok(Verb::Site(SiteVerb::Held(HeldVerb::Call(CallVerb::Start)))),
            b"work" => Ok(Verb::Site(SiteVerb::Held(HeldVerb::Call(CallVerb::Work)))),
            b"regrade" => Ok(Verb::Site(SiteVerb::Held(HeldVerb::Call(CallVerb::Regrade)))),
            b"ask" => Ok(Verb::Site(SiteVerb::Held(HeldVerb::Call(CallVerb::Ask)))),
            b"route" => Ok(Verb::Site(SiteVerb::Held(HeldVerb::Call(CallVerb::Route)))),
            b"check" => Ok(Verb::Site(SiteVerb::Held(HeldVerb::Check))),
            b"labels" => Ok(Verb::Site(SiteVerb::Held(HeldVerb::Labels))),
            b"entries" => Ok(Verb::Site(SiteVerb::Held(HeldVerb::Entries))),
            b"poke" => Ok(Verb::Site(SiteVerb::Held(HeldVerb::Poke))),
            b"resize" => Ok(Verb::Site(SiteVerb::Held(HeldVerb::Resize))),
            b"enter" => Ok(Verb::Site(SiteVerb::Held(HeldVerb::Enter))),
            b"pick" => Ok(Verb::Site(SiteVerb::Held(HeldVerb::Pick))),
            b"empty" => Ok(Verb::Site(SiteVerb::Held(HeldVerb::Empty))),
            b"waiting" => Ok(Verb::Site(SiteVerb::Held(HeldVerb::Waiting))),
            _ => Err(Trouble::Unknown),
        }
    }
}

impl TryFrom<&[u8]> for KindName {
    type Error = Trouble;

    ghost try_from_gives = { λ w r. r ≡ ok_or (kind_named w.now) NoKind };

    fn try_from(word: &[u8]) -> Result<KindName, Trouble> {
        match word {
            b"airtime" => Ok(KindName::Airtime),
            b"chance" => Ok(KindName::Chance),
            b"margin" => Ok(KindName::Margin),
            _ => Err(Trouble::NoKind),
        }
    }
}

impl fmt::Display for KindName {
    ghost output = { λ x. Some (kind_text x) };

    fn fmt<W: fmt::Write>(&self, f: &mut fmt::Formatter<W>) -> fmt::Result {
        f.write_str(match self {
            KindName::Airtime => "airtime",
            KindName::Chance => "chance",
            KindName::Margin => "margin",
        })
    }
}
