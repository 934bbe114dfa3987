// The entry of a station: the link over which its label came.
ghost use Rattle.std.specs.Prelude.{◌≡◌};
ghost use Rattle.walks.specs.Walk.{entry_at, labelled};

// The entry of a station without a label. It is no link, since there are at most 4,096.
pub const UNLABELLED: u16 = 65535;

// The entry of the gateway, whose label came over no link; no link either.
pub const OWN: u16 = 65534;

// The entry of a station, which has none past the end of the list.
pub fn entry_of(entries: &[u16], station: u16) -> u16
    ensures { result ≡ entry_at entries.now station }
{
    entries
        .get(usize::from(station))
        .copied()
        .unwrap_or(UNLABELLED)
}

// Whether a station has a label.
pub fn labelled(entries: &[u16], station: u16) -> bool
    ensures { result ≡ labelled entries.now station }
{
    entry_of(entries, station) != UNLABELLED
}
