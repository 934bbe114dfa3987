// What a branch tells.
ghost use Rattle.std.specs.Prelude.{◌≡◌};
ghost use Rattle.lists.specs.Meaning.{count_below};
ghost use Rattle.walks.specs.Branches.{marked};

use super::Branch;

impl Branch {
    // Whether this station is one of them.
    pub fn has(&self, station: u16) -> bool
        ensures { result ≡ marked self.now station }
    {
        self.marks
            .get(usize::from(station))
            .copied()
            .unwrap_or(false)
    }

    // How many they are.
    pub fn count(&self) -> u16
        ensures { result ≡ count_below (marked self.now) 1024 }
    {
        self.count
    }
}
