// The labels that were handed over.
ghost use Rattle.std.specs.Prelude.{◌≡◌};
ghost use Rattle.std.specs.List.{slice_get};

// The label of a station, or none where it was not handed over.
pub fn handed<L: Copy>(labels: &[L], station: u16) -> Option<L>
    ensures { result ≡ slice_get labels.now station }
{
    labels.get(usize::from(station)).copied()
}
