// What the bucket list does. Casts lose nothing, which is proved; `TryFrom` would add a case that cannot come.
ghost use Rattle.std.specs.Prelude.{◌≡◌, ◌<◌, true, false, length, MatchResult};
ghost use Rattle.std.specs.List.{slice_get};
ghost use Rattle.refusals.specs.declared.list.ListFault.TheVariants.{Buckets};
ghost use Rattle.lists.specs.Order.{waits_by, emptied_by, entered_by, picked_by};
ghost use Rattle.buckets.specs.Buckets.{ring_of, no_rows, bucket_count, buckets_refused, bucket_at, rank_of, buckets};
ghost use Rattle.lists.specs.Orders.{lawful-by};
ghost use Rattle.buckets.specs.Laws.{SoundRing, ring-sound, bucket-laws};

use super::Bucket;
use crate::shelves::Shelves;
use kinds::kind::Kind;
use lists::handed::handed;
use lists::list::{CandidateList, Entered};
use lists::station::Station;
use refusals::list::ListFault;

// The rank of a station's label, or 0 where it was not handed over.
fn rank_of<K: Kind>(labels: &[K::Label], station: Station) -> u32
    ensures { result ≡ rank_of K.Kind.rank (slice_get labels.now station.index) }
{
    handed(labels, station.index()).map_or(0, |label| K::rank(label))
}

impl Bucket {
    // A list of span / width + 1 buckets, each for so many ranks as the width says. Width 0 and more than 64 buckets are refused.
    pub fn new(width: u32, span: u32) -> Result<Bucket, ListFault>
        ensures { MatchResult result (λ s. (buckets_refused width span ≡ false) × (ring_of s ≡ no_rows width (bucket_count width span))) (λ e. (buckets_refused width span ≡ true) × (e ≡ Buckets)) }
    {
        if width == 0 || span / width >= 64 {
            return Err(ListFault::Buckets);
        }
        let count = (span / width) as u8 + 1;
        Ok(Bucket {
            shelves: Shelves::new(count),
            width,
            last: 0,
        })
    }

    // The bucket of a rank.
    fn bucket_of(&self, rank: u32) -> u8
        ensures is { result ≡ bucket_at (ring_of self.now) rank }
        ensures within { result < length (ring_of self.now).rows }
    {
        (rank / self.width % u32::from(self.shelves.count())) as u8
    }
}

impl<K: Kind> CandidateList<K> for Bucket {
    ghost waits = { waits_by ring_of (buckets K.Kind.rank) };

    ghost emptied = { emptied_by ring_of (buckets K.Kind.rank) };

    ghost entered = { entered_by ring_of (buckets K.Kind.rank) };

    ghost picked = { picked_by ring_of (buckets K.Kind.rank) };

    ghost lawful = { lawful-by ring_of (buckets _) SoundRing (bucket-laws _) ring-sound };

    fn empty(&mut self) {
        self.shelves.clear();
        self.last = 0;
    }

    fn enter(&mut self, station: u16, labels: &[K::Label]) -> Result<Entered, ListFault> {
        let station = Station::try_from(station)?;
        let bucket = self.bucket_of(rank_of::<K>(labels, station));
        Ok(self.shelves.place(bucket, station))
    }

    fn pick(&mut self, _labels: &[K::Label]) -> Option<u16> {
        let bucket = self.shelves.next(self.last)?;
        self.last = bucket;
        self.shelves.take_first(bucket).map(Station::index)
    }

    fn waiting(&self) -> u16 {
        self.shelves.len()
    }
}
