// The two lists that a net is a view of.
ghost use Rattle.std.specs.Prelude.{◌≡◌};

use super::Net;

impl<'a> Net<'a> {
    // The list of starts.
    pub fn starts(&self) -> &'a [u16]
        ensures { result ≡ self.now.starts }
    {
        self.starts
    }

    // The list of heads.
    pub fn heads(&self) -> &'a [u16]
        ensures { result ≡ self.now.heads }
    {
        self.heads
    }
}
