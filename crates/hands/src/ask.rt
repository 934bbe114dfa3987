// What a line asks for, of the commands on what is held. Its first word is the command itself.
ghost use Rattle.std.specs.Prelude.{◌≡◌};
ghost use Rattle.script.specs.Words.{word_bytes};
ghost use Rattle.hands.specs.declared.ask.NotAsked.TheVariants.{Refused, Troubled};
ghost use Rattle.hands.specs.Asks.{number_asked, regrade_asked, route_asked, enter_asked, pick_asked, element_asked, poke_asked, resize_asked, choice_asked, step_asked, buckets_asked};

use answers::trouble::{Trouble, Usage};
use choice::list_name::ListName;
use choice::make::Choice;
use reading::read::{Readable, read_word};
use reading::single::Single;
use refusals::kind::KindFault;
use script::words::reads_as;

// Why nothing is asked for, where a grade stands singly.
#[derive(Clone, Copy, Debug, PartialEq, Eq)]
pub enum NotAsked {
    // It is no grade (a chance above 65,536).
    Refused(KindFault),
    Troubled(Trouble),
}

// These are written out, since clauses name the error that `?` makes: a derived `From` has no `from_gives`.
impl From<KindFault> for NotAsked {
    ghost from_gives = { λ fault r. r ≡ Refused fault };

    fn from(fault: KindFault) -> NotAsked {
        NotAsked::Refused(fault)
    }
}

impl From<Trouble> for NotAsked {
    ghost from_gives = { λ trouble r. r ≡ Troubled trouble };

    fn from(trouble: Trouble) -> NotAsked {
        NotAsked::Troubled(trouble)
    }
}

// What `regrade` asks for.
#[derive(Clone, Copy, Debug, PartialEq, Eq)]
pub struct Regrading<G> {
    pub link: u16,
    pub grade: G,
}

// What `route` asks for.
#[derive(Clone, Copy, Debug, PartialEq, Eq)]
pub struct Routing {
    pub station: u16,
    // How many places there are for links.
    pub places: u16,
}

// What `enter` asks for.
#[derive(Clone, Copy, Debug, PartialEq, Eq)]
pub struct Entering {
    pub station: u16,
    // How many labels are handed over, if not all.
    pub handed: Option<u16>,
}

// An element of a list, and what is written there.
#[derive(Clone, Copy, Debug, PartialEq, Eq)]
pub struct Element<T> {
    pub index: u16,
    pub value: T,
}

// What `poke` asks for.
#[derive(Clone, Copy, Debug, PartialEq, Eq)]
pub enum Poking<L, G> {
    Label(Element<L>),
    Entry(Element<u16>),
    Grade(Element<G>),
}

// What `resize` asks for: a list, and how many elements it has then.
#[derive(Clone, Copy, Debug, PartialEq, Eq)]
pub enum Resizing {
    Labels(u16),
    Entries(u16),
    Grades(u16),
}

// `start`, `work`, `ask` and `check`: one number.
pub fn number_asked(words: &[&[u8]], usage: Usage) -> Result<u16, Trouble>
    ensures { result ≡ number_asked usage (word_bytes words.now) }
{
    match words {
        [_, number] => read_word(number, 2),
        _ => Err(Trouble::Usage(usage)),
    }
}

// `regrade`: a link and a grade.
pub fn regrade_asked<G: Single>(words: &[&[u8]]) -> Result<Regrading<G>, NotAsked>
    ensures { result ≡ regrade_asked G.Spelt.reads G.Spelt.bounds G.makes (word_bytes words.now) }
{
    match words {
        [_, link, grade] => Ok(Regrading {
            link: read_word(link, 2)?,
            grade: G::single(read_word(grade, 3)?)?,
        }),
        _ => Err(NotAsked::Troubled(Trouble::Usage(Usage::Regrade))),
    }
}

// `route`: a station, and how many places there are for links.
pub fn route_asked(words: &[&[u8]]) -> Result<Routing, Trouble>
    ensures { result ≡ route_asked (word_bytes words.now) }
{
    match words {
        [_, station, places] => Ok(Routing {
            station: read_word(station, 2)?,
            places: read_word(places, 3)?,
        }),
        _ => Err(Trouble::Usage(Usage::Route)),
    }
}

// `enter`: a station, and how many labels are handed over, if not all.
pub fn enter_asked(words: &[&[u8]]) -> Result<Entering, Trouble>
    ensures { result ≡ enter_asked (word_bytes words.now) }
{
    match words {
        [_, station] => Ok(Entering {
            station: read_word(station, 2)?,
            handed: None,
        }),
        [_, station, handed] => Ok(Entering {
            station: read_word(station, 2)?,
            handed: Some(read_word(handed, 3)?),
        }),
        _ => Err(Trouble::Usage(Usage::Enter)),
    }
}

// `pick`: how many labels are handed over, if not all.
pub fn pick_asked(words: &[&[u8]]) -> Result<Option<u16>, Trouble>
    ensures { result ≡ pick_asked (word_bytes words.now) }
{
    match words {
        [_] => Ok(None),
        [_, handed] => Ok(Some(read_word(handed, 2)?)),
        _ => Err(Trouble::Usage(Usage::Pick)),
    }
}

// An index, and a value of the list.
fn element_asked<T: Readable>(index: &[u8], value: &[u8]) -> Result<Element<T>, Trouble>
    ensures { result ≡ element_asked T.Readable index.now value.now }
{
    Ok(Element {
        index: read_word(index, 3)?,
        value: read_word(value, 4)?,
    })
}

// `poke`: an element of the labels, the entries or the grades.
pub fn poke_asked<L: Readable, G: Readable>(words: &[&[u8]]) -> Result<Poking<L, G>, Trouble>
    ensures { result ≡ poke_asked L.Readable G.Readable (word_bytes words.now) }
{
    let [_, what, index, value] = words else {
        return Err(Trouble::Usage(Usage::Poke));
    };
    if reads_as(what, "label") {
        Ok(Poking::Label(element_asked(index, value)?))
    } else if reads_as(what, "entry") {
        Ok(Poking::Entry(element_asked(index, value)?))
    } else if reads_as(what, "grade") {
        Ok(Poking::Grade(element_asked(index, value)?))
    } else {
        Err(Trouble::Usage(Usage::Poke))
    }
}

// `resize`: the labels, the entries or the grades, and how many there are then.
pub fn resize_asked(words: &[&[u8]]) -> Result<Resizing, Trouble>
    ensures { result ≡ resize_asked (word_bytes words.now) }
{
    let [_, what, count] = words else {
        return Err(Trouble::Usage(Usage::Resize));
    };
    if reads_as(what, "labels") {
        Ok(Resizing::Labels(read_word(count, 3)?))
    } else if reads_as(what, "entries") {
        Ok(Resizing::Entries(read_word(count, 3)?))
    } else if reads_as(what, "grades") {
        Ok(Resizing::Grades(read_word(count, 3)?))
    } else {
        Err(Trouble::Usage(Usage::Resize))
    }
}

// The step of a threshold list.
fn step_asked<G: Single>(step: &[u8]) -> Result<Choice<G>, NotAsked>
    ensures { result ≡ step_asked G.Spelt.reads G.Spelt.bounds G.makes step.now }
{
    Ok(Choice::Threshold(G::single(read_word(step, 3)?)?))
}

// The width and the span of buckets.
fn buckets_asked<G>(width: &[u8], span: &[u8]) -> Result<Choice<G>, NotAsked>
    ensures { result ≡ buckets_asked width.now span.now }
{
    Ok(Choice::Bucket(read_word(width, 3)?, read_word(span, 4)?))
}

// `list`: the list that is chosen.
pub fn choice_asked<G: Single>(words: &[&[u8]]) -> Result<Choice<G>, NotAsked>
    ensures { result ≡ choice_asked G.Spelt.reads G.Spelt.bounds G.makes (word_bytes words.now) }
{
    let [_, name, values @ ..] = words else {
        return Err(NotAsked::Troubled(Trouble::Usage(Usage::List)));
    };
    match (ListName::try_from(*name), values) {
        (Ok(ListName::FirstIn), []) => Ok(Choice::FirstIn),
        (Ok(ListName::TwoEnded), []) => Ok(Choice::TwoEnded),
        (Ok(ListName::SmallLabel), []) => Ok(Choice::SmallLabel),
        (Ok(ListName::Threshold), [step]) => step_asked(step),
        (Ok(ListName::Bucket), [width, span]) => buckets_asked(width, span),
        _ => Err(NotAsked::Troubled(Trouble::Usage(Usage::List))),
    }
}
