// What the buckets' queues do.
ghost use Rattle.std.specs.Prelude.{◌≡◌, ◌<◌, ◌≤◌, true, false, [], map, length, replicate, is_some, IfSome, if◌then◌else◌, option_map, Some, ◌≢◌, slice_index_or, slice_set};
ghost use Rattle.lists.specs.Meaning.{count_below};
ghost use Rattle.lists.specs.Stations.{holds, top_of, rest_of};
ghost use Rattle.lists.specs.declared.list.Entered.TheVariants.{Waiting, New};
ghost use Rattle.buckets.specs.Firsts.{next_from};
ghost use Rattle.buckets.specs.Rows.{filled, without, in_rows, placed, home_in};
ghost use Rattle.buckets.specs.Shelved.{rows_of};

use super::Shelves;
use crate::chains::Chains;
use crate::small_set::SmallSet;
use lists::list::Entered;
use lists::station::Station;

// `many` follows from `after`; it is said beside it so that the bucket list's own invariant is proved without lemmas on lengths.
// A row is asked to be below the count of this value, which is tighter than what a type for numbers below 64 would tell.
impl Shelves {
    pub(crate) fn new(count: u8) -> Shelves
        requires { count ≤ 64 }
        ensures after { rows_of result ≡ replicate count [] }
        ensures many { length (rows_of result) ≡ count }
    {
        Shelves {
            chains: Chains::new(),
            busy: SmallSet::none(),
            count,
        }
    }

    pub(crate) fn clear(&mut self)
        ensures after { rows_of self.new ≡ replicate (length (rows_of self.old)) [] }
        ensures many { length (rows_of self.new) ≡ length (rows_of self.old) }
    {
        self.chains.clear();
        self.busy = SmallSet::none();
    }

    pub(crate) fn count(&self) -> u8
        ensures { result ≡ length (rows_of self.now) }
    {
        self.count
    }

    // How many stations are in rows.
    pub(crate) fn len(&self) -> u16
        ensures { result ≡ count_below (in_rows (rows_of self.now)) 1024 }
    {
        self.chains.len()
    }

    // The row that a station is in.
    pub(crate) fn home(&self, station: Station) -> Option<u8>
        ensures held { home_in (rows_of self.now) station.index result }
        ensures waits { in_rows (rows_of self.now) station.index ≡ is_some result }
        ensures stays { IfSome result (λ home. placed (rows_of self.now) home station.index ≡ rows_of self.now) }
    {
        self.chains.home(station)
    }

    // The first row with a station from the row `at` on, then round from 0.
    pub(crate) fn next(&self, at: u8) -> Option<u8>
        requires { at < length (rows_of self.now) }
        ensures found { result ≡ next_from (λ b. filled (slice_index_or (rows_of self.now) b [])) (length (rows_of self.now)) at }
        ensures within { IfSome result (λ b. b < length (rows_of self.now)) }
    {
        self.busy.next(at)
    }

    // The station, which is in no row, goes to the end of the row b.
    pub(crate) fn put_in(&mut self, b: u8, station: Station)
        requires bound { b < length (rows_of self.old) }
        requires gone { in_rows (rows_of self.old) station.index ≡ false }
        ensures after { rows_of self.new ≡ placed (rows_of self.old) b station.index }
        ensures many { length (rows_of self.new) ≡ length (rows_of self.old) }
    {
        self.chains.push(b, station);
        self.busy.insert(b);
    }

    // The station leaves the row b.
    pub(crate) fn take_out(&mut self, b: u8, station: Station)
        requires { holds (slice_index_or (rows_of self.old) b []) station.index ≡ true }
        ensures { rows_of self.new ≡ map (without station.index) (rows_of self.old) }
    {
        self.chains.unlink(station);
        if self.chains.first(b).is_none() {
            self.busy.remove(b);
        }
    }

    // The oldest station of the row b leaves it.
    pub(crate) fn take_first(&mut self, b: u8) -> Option<Station>
        requires { b < length (rows_of self.old) }
        ensures answer { option_map (λ s. s.index) result ≡ top_of (slice_index_or (rows_of self.old) b []) }
        ensures after { rows_of self.new ≡ slice_set (rows_of self.old) b (rest_of (slice_index_or (rows_of self.old) b [])) }
        ensures many { length (rows_of self.new) ≡ length (rows_of self.old) }
    {
        let station = self.chains.first(b)?;
        self.take_out(b, station);
        Some(station)
    }

    // The station goes from its row to the end of the row b.
    pub(crate) fn shift(&mut self, home: u8, b: u8, station: Station)
        requires bound { b < length (rows_of self.old) }
        requires held { home_in (rows_of self.old) station.index (Some home) }
        requires apart { home ≢ b }
        ensures after { rows_of self.new ≡ placed (rows_of self.old) b station.index }
        ensures many { length (rows_of self.new) ≡ length (rows_of self.old) }
    {
        self.take_out(home, station);
        self.put_in(b, station);
    }

    // The station goes to the end of the row b, unless it is in that row already.
    pub(crate) fn place(&mut self, b: u8, station: Station) -> Entered
        requires bound { b < length (rows_of self.old) }
        ensures answer { result ≡ (if in_rows (rows_of self.old) station.index then Waiting else New) }
        ensures after { rows_of self.new ≡ placed (rows_of self.old) b station.index }
        ensures many { length (rows_of self.new) ≡ length (rows_of self.old) }
    {
        let Some(home) = self.home(station) else {
            self.put_in(b, station);
            return Entered::New;
        };
        if home != b {
            self.shift(home, b, station);
        }
        Entered::Waiting
    }
}
