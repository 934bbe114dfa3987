// What is known of a station.

// The label and the entry of a labelled station.
#[derive(Clone, Copy, Debug, PartialEq, Eq)]
pub struct Reached<L> {
    pub label: L,
    pub entry: u16,
}

// What is known of a station, and how many stations wait.
#[derive(Clone, Copy, Debug, PartialEq, Eq)]
pub struct Asked<L> {
    pub reached: Option<Reached<L>>,
    pub waiting: u16,
}
