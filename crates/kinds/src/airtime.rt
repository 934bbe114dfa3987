// Airtimes.
ghost use Rattle.std.specs.Prelude.{◌≡◌, ◌≤◌};

// How long a reading is in the air: microseconds, where 4,294,967,295 stands for that many or more. The order is that of the numbers: the smaller airtime is the better.
#[derive(Clone, Copy, Debug, PartialEq, Eq, PartialOrd, Ord)]
pub struct Airtime {
    micros: u32,
    ghost fits: { micros ≤ 4294967295 },
}

impl Airtime {
    pub fn micros(self) -> u32
        ensures { result ≡ self.micros }
    {
        self.micros
    }
}

pub mod by;
