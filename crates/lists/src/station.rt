// Stations of a candidate list.
ghost use Rattle.std.specs.Prelude.{◌≡◌, ◌<◌, ◌≤◌, MatchResult};
ghost use Rattle.refusals.specs.declared.list.ListFault.TheVariants as fault;

use refusals::list::ListFault;

// A station below 1,024.
#[derive(Clone, Copy, Debug, PartialEq, Eq)]
pub struct Station {
    index: u16,
    ghost small: { index < 1024 },
}

impl Station {
    pub(crate) const FIRST: Station = Station { index: 0 };

    pub fn index(self) -> u16
        ensures { result ≡ self.index }
    {
        self.index
    }
}

impl TryFrom<u16> for Station {
    type Error = ListFault;

    ghost try_from_gives = { λ n r. MatchResult r (λ s. (s.index ≡ n) × (n < 1024)) (λ e. (e ≡ fault.Station) × (1024 ≤ n)) };

    fn try_from(index: u16) -> Result<Station, ListFault> {
        if index < 1024 {
            Ok(Station { index })
        } else {
            Err(ListFault::Station)
        }
    }
}
