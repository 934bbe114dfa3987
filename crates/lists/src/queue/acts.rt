// What a queue does. Indices are cast: `usize::from` at each is no plainer, and a step more in every proof.
ghost use Rattle.std.specs.Prelude.{◌≡◌, ◌<◌, ◌≤◌, false, [], ◌∷◌, ◌++◌, length, option_map, slice_index};
ghost use Rattle.lists.specs.Meaning.{count_below};
ghost use Rattle.lists.specs.Queues.{line_of};
ghost use Rattle.lists.specs.Stations.{holds, top_of, rest_of};

use super::Queue;
use crate::station::Station;

impl Queue {
    pub(crate) fn new() -> Queue
        ensures { line_of result ≡ [] }
    {
        Queue {
            ring: [Station::FIRST; 1024],
            top: 0,
            len: 0,
            held: [false; 1024],
        }
    }

    pub(crate) fn clear(&mut self)
        ensures { line_of self.new ≡ [] }
    {
        self.held = [false; 1024];
        self.top = 0;
        self.len = 0;
    }

    pub(crate) fn len(&self) -> u16
        ensures many { result ≡ length (line_of self.now) }
        ensures few { result ≤ 1024 }
        ensures counted { result ≡ count_below (holds (line_of self.now)) 1024 }
    {
        self.len
    }

    pub(crate) fn has(&self, station: Station) -> bool
        ensures { result ≡ holds (line_of self.now) station.index }
    {
        self.held[station.index() as usize]
    }

    pub(crate) fn top(&self) -> Option<Station>
        ensures { option_map (λ s. s.index) result ≡ top_of (line_of self.now) }
    {
        // An `if`: a closure for `then` would have to state that the queue's facts hold.
        if self.len == 0 {
            return None;
        }
        Some(self.ring[self.top as usize])
    }

    // The station at a place, counted from the top.
    pub(crate) fn at(&self, place: u16) -> Station
        requires { place < length (line_of self.now) }
        ensures { result.index ≡ slice_index (line_of self.now) place }
    {
        self.ring[(self.top as usize + place as usize) % 1024]
    }

    // A station that is not in the queue goes to its bottom.
    pub(crate) fn push_bottom(&mut self, station: Station)
        requires { holds (line_of self.old) station.index ≡ false }
        ensures { line_of self.new ≡ line_of self.old ++ station.index ∷ [] }
    {
        let bottom = (self.top as usize + self.len as usize) % 1024;
        self.ring[bottom] = station;
        self.held[station.index() as usize] = true;
        self.len += 1;
    }

    // A station that is not in the queue goes to its top.
    pub(crate) fn push_top(&mut self, station: Station)
        requires { holds (line_of self.old) station.index ≡ false }
        ensures { line_of self.new ≡ station.index ∷ line_of self.old }
    {
        self.top = (self.top + 1023) % 1024;
        self.ring[self.top as usize] = station;
        self.held[station.index() as usize] = true;
        self.len += 1;
    }

    // Takes the station at the top.
    pub(crate) fn pop(&mut self) -> Option<Station>
        ensures answer { option_map (λ s. s.index) result ≡ top_of (line_of self.old) }
        ensures after { line_of self.new ≡ rest_of (line_of self.old) }
    {
        if self.len == 0 {
            return None;
        }
        let station = self.ring[self.top as usize];
        self.held[station.index() as usize] = false;
        self.top = (self.top + 1) % 1024;
        self.len -= 1;
        Some(station)
    }
}
