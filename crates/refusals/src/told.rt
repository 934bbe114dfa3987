// How a refusal is told: its number, its place and its layer.
ghost use Rattle.std.specs.Prelude.{◌≡◌, Some};
ghost use Rattle.refusals.specs.declared.told.Told.{Told};
ghost use Rattle.refusals.specs.Texts.{layer_text, told_text};

use std::fmt;

// The layer that a refusal comes from.
#[derive(Clone, Copy, Debug, PartialEq, Eq)]
pub enum Layer {
    Net,
    Kind,
    List,
    Book,
    Check,
}

impl fmt::Display for Layer {
    ghost output = { λ x. Some (layer_text x) };

    fn fmt<W: fmt::Write>(&self, f: &mut fmt::Formatter<W>) -> fmt::Result {
        f.write_str(match self {
            Layer::Net => "net",
            Layer::Kind => "kind",
            Layer::List => "list",
            Layer::Book => "book",
            Layer::Check => "check",
        })
    }
}

// A refusal as the technician meets it: its number, the station, link or count that it is about (0 where none is named), and its layer.
// Number and place are numbers, and the place no `Option`, since that is how the table of refusals and the program tell them; code matches on the enums.
#[derive(Clone, Copy, Debug, PartialEq, Eq)]
pub struct Told {
    pub number: u8,
    pub place: u16,
    pub layer: Layer,
}

impl fmt::Display for Told {
    ghost output = { λ x. Some (told_text x) };

    fn fmt<W: fmt::Write>(&self, f: &mut fmt::Formatter<W>) -> fmt::Result {
        let Told {
            number,
            place,
            layer,
        } = self;
        write!(f, "refused {number} place {place} layer {layer}")
    }
}

// What the refusals of every layer have.
pub trait Fault {
    ghost tells: { Self → Told };

    fn told(&self) -> Told
        ensures { result ≡ tells self.now };

    fn number(&self) -> u8
        ensures { result ≡ (tells self.now).number }
    {
        self.told().number
    }

    fn place(&self) -> u16
        ensures { result ≡ (tells self.now).place }
    {
        self.told().place
    }

    fn layer(&self) -> Layer
        ensures { result ≡ (tells self.now).layer }
    {
        self.told().layer
    }
}
