// The book of a gateway.
ghost use Rattle.std.specs.Prelude.{◌≡◌};
ghost use Rattle.book.specs.Books.{new_book};

// Whether it was started, and its gateway. Net, grades, labels, entries and candidate list are the caller's, handed over at each call; the law of runs is for callers who hand over the same ones at every accepted call.
#[derive(Drop, Debug, PartialEq, Eq)]
pub struct Book {
    pub(crate) started: bool,
    pub(crate) gateway: u16,
}

impl Book {
    // A book that was not started.
    pub fn new() -> Book
        ensures { result ≡ new_book }
    {
        Book {
            started: false,
            gateway: 0,
        }
    }
}
