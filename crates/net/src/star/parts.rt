// What a net has: stations, links, heads, and the links of a station. Casts lose nothing, which is proved; `TryFrom` would add a case that cannot come.
ghost use Rattle.std.specs.Prelude.{◌≡◌, ◌+◌, ◌≤◌, [], ◌∷◌, MatchOption};
ghost use Rattle.net.specs.Table.{station_count, link_count, first_link, head_of};
ghost use Rattle.net.specs.View.{table_of};

use super::Net;
use std::ops::Range;

impl<'a> Net<'a> {
    // The net of one station and no link.
    pub fn single() -> Net<'a>
        ensures starts { (table_of result).starts ≡ 0 ∷ 0 ∷ [] }
        ensures heads { (table_of result).heads ≡ [] }
    {
        Net {
            starts: &[0, 0],
            heads: &[],
        }
    }

    // How many stations there are: 1 to 1,024.
    pub fn stations(&self) -> u16
        ensures { result ≡ station_count (table_of self.now) }
    {
        (self.starts.len() - 1) as u16
    }

    // How many links there are: 0 to 4,096.
    pub fn links(&self) -> u16
        ensures { result ≡ link_count (table_of self.now) }
    {
        self.heads.len() as u16
    }

    // The station to which a link leads, or none where there is no such link.
    pub fn head(&self, link: u16) -> Option<u16>
        ensures { result ≡ head_of (table_of self.now) link }
    {
        self.heads.get(usize::from(link)).copied()
    }

    // The links that leave a station, or none where there is no such station.
    pub fn links_of(&self, station: u16) -> Option<Range<u16>>
        ensures { MatchOption result (station_count (table_of self.now) ≤ station) (λ x. (station + 1 ≤ station_count (table_of self.now)) × (x.start ≡ first_link (table_of self.now) station) × (x.end ≡ first_link (table_of self.now) (station + 1))) }
    {
        let at = usize::from(station);
        let end = *self.starts.get(at + 1)?;
        Some(self.starts[at]..end)
    }
}
