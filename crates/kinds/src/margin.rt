// Margins.
ghost use Rattle.std.specs.Prelude.{◌≡◌, true, pos, negsuc, int_le};

// By how many decibels the weakest link is above what the radio needs: -128 to 127.
#[derive(Clone, Copy, Debug, PartialEq, Eq, PartialOrd, Ord)]
pub struct Margin {
    decibels: i8,
    ghost least: { int_le (negsuc 127) decibels ≡ true },
    ghost most: { int_le decibels (pos 127) ≡ true },
}

impl Margin {
    pub fn decibels(self) -> i8
        ensures { result ≡ self.decibels }
    {
        self.decibels
    }
}

pub mod by;
