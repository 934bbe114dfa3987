// Whether what is handed over at a call fits the net, and whether the book was started: the tests that calls share.
ghost use Rattle.std.specs.Prelude.{◌&&◌, ◌==◌};
ghost use Rattle.net.specs.Table.{station_count, link_count};
ghost use Rattle.net.specs.View.{table_of};
ghost use Rattle.refusals.specs.declared.book.BookFault.TheVariants as fault;
ghost use Rattle.book.specs.Tested.{Tested};

use crate::book::Book;
use net::star::Net;
use plans::fits;
use refusals::book::BookFault;

// One grade per link.
pub(crate) fn graded(net: &Net, grades: usize) -> Result<(), BookFault>
    ensures { Tested result fault.Grades (grades == link_count (table_of net.now)) }
{
    if !fits::graded(net, grades) {
        return Err(BookFault::Grades);
    }
    Ok(())
}

// One label and one entry per station.
pub(crate) fn sized(net: &Net, labels: usize, entries: usize) -> Result<(), BookFault>
    ensures { Tested result fault.Stations (labels == station_count (table_of net.now) && entries == station_count (table_of net.now)) }
{
    if !fits::sized(net, labels, entries) {
        return Err(BookFault::Stations);
    }
    Ok(())
}

impl Book {
    // It was started.
    pub(crate) fn under_way(&self) -> Result<(), BookFault>
        ensures { Tested result fault.NotStarted self.now.started }
    {
        if !self.started {
            return Err(BookFault::NotStarted);
        }
        Ok(())
    }
}
