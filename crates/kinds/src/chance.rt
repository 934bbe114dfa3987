// Chances.
ghost use Rattle.std.specs.Prelude.{◌≡◌, ◌≤◌};

// How likely a reading comes through, in parts of 65,536. No larger chance can exist.
#[derive(Clone, Copy, Debug, PartialEq, Eq, PartialOrd, Ord)]
pub struct Chance {
    parts: u32,
    ghost most: { parts ≤ 65536 },
}

impl Chance {
    pub fn parts(self) -> u32
        ensures { result ≡ self.parts }
    {
        self.parts
    }
}

pub mod by;
