// The worked runs on the code itself: a book over each of the lists, with labels and entries in the caller's memory.
use book::book::Book;
use choice::any::AnyList;
use choice::list_name::ListName;
use choice::make::{choice_of, make};
use kinds::airtime::Airtime;
use kinds::airtime::by::ByAirtime;
use net::star::Net;
use refusals::book::BookFault;
use refusals::told::{Fault, Layer};
use std::test::Fail;

// Four stations and five links, with their airtimes.
pub(crate) const STARTS: [u16; 5] = [0, 2, 3, 5, 5];

pub(crate) const HEADS: [u16; 5] = [1, 2, 3, 1, 3];

pub(crate) const AIRTIMES: [u32; 5] = [4, 1, 1, 2, 5];

// The list of this number.
fn list_of(number: u8) -> Result<AnyList<ByAirtime>, Fail> {
    let name = ListName::try_from(number)?;
    Ok(make::<ByAirtime>(choice_of(name, Airtime::new(2), 2, 5))?)
}

#[test]
fn five_lists_work_out(rt: HostRuntime) -> Result<(), Fail> {
    let mut net = Net::single();
    net.fill(&STARTS, &HEADS)?;
    let grades = AIRTIMES.map(Airtime::new);
    for (number, picks) in [(0, 6), (1, 5), (2, 4), (3, 4), (4, 5)] {
        let mut labels = [Airtime::new(0); 4];
        let mut entries = [65535; 4];
        let mut list = list_of(number)?;
        let mut book = Book::new();
        book.start::<ByAirtime, _>(&net, &grades, &mut labels, &mut entries, &mut list, 0)?;
        let told = book.work::<ByAirtime, _>(
            &net,
            &grades,
            &mut labels,
            &mut entries,
            &mut list,
            10,
        )?;
        assert_eq!(rt; told, (picks, 0), "list {number}");
        assert_eq!(rt; labels.map(Airtime::micros), [0, 3, 1, 4], "list {number}");
        assert_eq!(rt; entries, [65534, 3, 1, 2], "list {number}");
    }
    Ok(())
}

#[test]
fn regraded(rt: HostRuntime) -> Result<(), Fail> {
    let mut net = Net::single();
    net.fill(&STARTS, &HEADS)?;
    let mut grades = AIRTIMES.map(Airtime::new);
    let mut labels = [Airtime::new(0); 4];
    let mut entries = [65535; 4];
    let mut list = list_of(0)?;
    let mut book = Book::new();
    book.start::<ByAirtime, _>(&net, &grades, &mut labels, &mut entries, &mut list, 0)?;
    let _ = book.work::<ByAirtime, _>(&net, &grades, &mut labels, &mut entries, &mut list, 10)?;
    let told = book.regrade::<ByAirtime, _>(
        &net,
        &mut grades,
        &mut labels,
        &mut entries,
        &mut list,
        3,
        Airtime::new(9),
    )?;
    assert_eq!(rt; told, (2, 2));
    assert_eq!(rt; entries, [65534, 65535, 1, 65535]);
    let asked = book.ask::<ByAirtime, _>(&net, &grades, &labels, &entries, &list, 1)?;
    assert!(rt; asked.reached.is_none());
    assert_eq!(rt; asked.waiting, 2);
    let told = book.work::<ByAirtime, _>(&net, &grades, &mut labels, &mut entries, &mut list, 10)?;
    assert_eq!(rt; told, (4, 0));
    assert_eq!(rt; labels.map(Airtime::micros), [0, 4, 1, 5]);
    assert_eq!(rt; entries, [65534, 0, 1, 2]);
    Ok(())
}

#[test]
fn one_station(rt: HostRuntime) -> Result<(), Fail> {
    let net = Net::single();
    let grades = [Airtime::new(0); 0];
    let mut labels = [Airtime::new(7)];
    let mut entries = [0];
    let mut list = list_of(0)?;
    let mut book = Book::new();
    let early = book.work::<ByAirtime, _>(&net, &grades, &mut labels, &mut entries, &mut list, 1);
    assert_eq!(rt; early, Err(BookFault::NotStarted));
    book.start::<ByAirtime, _>(&net, &grades, &mut labels, &mut entries, &mut list, 0)?;
    let told = book.work::<ByAirtime, _>(&net, &grades, &mut labels, &mut entries, &mut list, 0)?;
    assert_eq!(rt; told, (0, 1));
    assert_eq!(rt; labels[0].micros(), 0);
    assert_eq!(rt; entries, [65534]);
    Ok(())
}

// Places past the route stay as they were; so do all where the route is refused.
#[test]
fn routes(rt: HostRuntime) -> Result<(), Fail> {
    let mut net = Net::single();
    net.fill(&STARTS, &HEADS)?;
    let grades = AIRTIMES.map(Airtime::new);
    let mut labels = [Airtime::new(0); 4];
    let mut entries = [65535; 4];
    let mut list = list_of(0)?;
    let mut book = Book::new();
    book.start::<ByAirtime, _>(&net, &grades, &mut labels, &mut entries, &mut list, 0)?;
    let _ = book.work::<ByAirtime, _>(&net, &grades, &mut labels, &mut entries, &mut list, 10)?;
    let mut places = [9; 10];
    let links = book.route::<ByAirtime, _>(
        &net,
        &grades,
        &labels,
        &entries,
        &list,
        3,
        &mut places,
    )?;
    assert_eq!(rt; links, 3);
    assert_eq!(rt; places, [1, 3, 2, 9, 9, 9, 9, 9, 9, 9]);
    let mut two = [9; 2];
    let short = book.route::<ByAirtime, _>(&net, &grades, &labels, &entries, &list, 3, &mut two);
    assert_eq!(rt; short, Err(BookFault::Short(3)));
    assert_eq!(rt; two, [9; 2]);
    entries[1] = 65534;
    let astray = book.route::<ByAirtime, _>(
        &net,
        &grades,
        &labels,
        &entries,
        &list,
        3,
        &mut places,
    );
    let Err(fault) = astray else {
        return Err(Fail::new("not refused"));
    };
    assert_eq!(rt; fault, BookFault::Astray);
    assert_eq!(rt; fault.number(), 11);
    assert_eq!(rt; fault.place(), 0);
    assert_eq!(rt; fault.layer(), Layer::Book);
    Ok(())
}
