// The worked cases on the code itself, the refusals of a net and of lists with their places, and texts that no script shows.
use super::worked_cases;
use answers::trouble::Trouble;
use choice::any::AnyList;
use choice::list_name::{ListName, UnknownList};
use choice::make::{Choice, choice_of, make};
use kinds::airtime::Airtime;
use kinds::airtime::by::ByAirtime;
use kinds::chance::Chance;
use kinds::chance::by::ByChance;
use kinds::kind::Kind;
use kinds::margin::Margin;
use kinds::margin::by::ByMargin;
use lists::list::{CandidateList, Entered};
use net::star::Net;
use paths::grade::grade_path;
use paths::simple::is_simple;
use refusals::book::BookFault;
use refusals::list::ListFault;
use refusals::net::NetFault;
use refusals::refusal::Refusal;
use refusals::told::{Fault, Layer};
use std::mem::size_of;
use std::test::Fail;

#[test]
fn kinds_carry(rt: HostRuntime) {
    let most = Airtime::new(4294967290);
    assert_eq!(rt;
        ByAirtime::carry(most, Airtime::new(5)).micros(),
        4294967295
    );
    assert_eq!(rt;
        ByAirtime::carry(most, Airtime::new(6)).micros(),
        4294967295
    );
    let half = Chance::read(32768);
    assert_eq!(rt; ByChance::carry(half, half).parts(), 16384);
    assert_eq!(rt;
        ByChance::carry(Chance::read(1), Chance::read(65535)).parts(),
        0
    );
    assert_eq!(rt;
        ByMargin::carry(Margin::new(-3), Margin::new(5)).decibels(),
        -3
    );
    assert_eq!(rt;
        ByMargin::carry(Margin::new(127), Margin::new(-128)).decibels(),
        -128
    );
    assert_eq!(rt; worked_cases(), 32);
}

#[test]
fn large_chances(rt: HostRuntime) {
    assert_eq!(rt; Chance::read(4294967295).parts(), 65536);
    assert_eq!(rt; Chance::new(65537).map_err(|fault| fault.number()), Err(13));
}

#[test]
fn nets_refused(rt: HostRuntime) {
    let mut net = Net::single();
    assert_eq!(rt; net.fill(&[0], &[]), Err(NetFault::Stations));
    assert_eq!(rt; net.fill(&[0, 2, 1], &[0]), Err(NetFault::Starts));
    assert_eq!(rt; net.fill(&[0, 3], &[0, 1, 7]), Err(NetFault::Head(1)));
    assert_eq!(rt; net.stations(), 1);
    assert_eq!(rt; NetFault::Head(1).told().number, 4);
}

#[test]
fn four_roofs(rt: HostRuntime) -> Result<(), Fail> {
    let starts = [0, 2, 3, 5, 5];
    let heads = [1, 2, 3, 1, 3];
    let mut net = Net::single();
    net.fill(&starts, &heads)?;
    assert_eq!(rt; net.tail(3), Some(2));
    assert_eq!(rt; net.head(3), Some(1));
    assert!(rt; is_simple(&net, &[1, 3, 2]));
    assert!(rt; !is_simple(&net, &[]));
    let grades = [4, 1, 1, 2, 5].map(Airtime::new);
    let label = grade_path::<ByAirtime>(&net, &grades, 0, &[1, 3, 2])?;
    assert_eq!(rt; label.micros(), 4);
    Ok(())
}

#[test]
fn labels_written(rt: HostRuntime) -> Result<(), Fail> {
    let heap = rt.alloc();
    let (time, parts, none, least) = (
        Airtime::new(4294967295),
        Chance::read(65536),
        Chance::read(0),
        Margin::new(-128),
    );
    let text = format!(in heap; "{time} {parts} {none} {least}")?;
    assert_eq!(rt; text.as_str(), "4294967295 65536 0 -128");
    Ok(())
}

#[test]
fn troubles_written(rt: HostRuntime) -> Result<(), Fail> {
    let heap = rt.alloc();
    let (memory, list) = (Trouble::Memory, UnknownList);
    let text = format!(in heap; "{memory}, {list}")?;
    assert_eq!(rt; text.as_str(), "out of memory, no such candidate list");
    Ok(())
}

const LABELS: [u32; 4] = [0, 5, 3, 9];

// Stations enter the list of this number, with labels for four; what five picks answer then.
fn leave(number: u8, stations: [u16; 4]) -> Result<[Option<u16>; 5], Fail> {
    let labels = LABELS.map(Airtime::new);
    let name = ListName::try_from(number)?;
    let mut list = make::<ByAirtime>(choice_of(name, Airtime::new(2), 2, 5))?;
    for station in stations {
        let _ = list.enter(station, &labels)?;
    }
    let mut picked = [None; 5];
    for station in &mut picked {
        *station = list.pick(&labels);
    }
    Ok(picked)
}

#[test]
fn lists_in_order(rt: HostRuntime) -> Result<(), Fail> {
    let known = [1, 2, 3, 0];
    let partly = [1, 3, 4, 2];
    assert_eq!(rt;
        leave(0, known)?,
        [Some(1), Some(2), Some(3), Some(0), None]
    );
    assert_eq!(rt;
        leave(2, known)?,
        [Some(0), Some(2), Some(1), Some(3), None]
    );
    assert_eq!(rt;
        leave(2, partly)?,
        [Some(2), Some(1), Some(3), Some(4), None]
    );
    assert_eq!(rt;
        leave(3, known)?,
        [Some(0), Some(1), Some(2), Some(3), None]
    );
    assert_eq!(rt;
        leave(3, partly)?,
        [Some(4), Some(1), Some(2), Some(3), None]
    );
    assert_eq!(rt;
        leave(4, known)?,
        [Some(0), Some(2), Some(3), Some(1), None]
    );
    assert_eq!(rt;
        leave(4, partly)?,
        [Some(4), Some(3), Some(2), Some(1), None]
    );
    Ok(())
}

#[test]
fn back_on_top(rt: HostRuntime) -> Result<(), Fail> {
    let labels = LABELS.map(Airtime::new);
    let mut list = make::<ByAirtime>(Choice::TwoEnded)?;
    assert_eq!(rt; list.enter(1, &labels)?, Entered::New);
    assert_eq!(rt; list.enter(2, &labels)?, Entered::New);
    assert_eq!(rt; list.pick(&labels), Some(1));
    assert_eq!(rt; list.enter(3, &labels)?, Entered::New);
    assert_eq!(rt; list.enter(1, &labels)?, Entered::New);
    assert_eq!(rt; list.enter(2, &labels)?, Entered::Waiting);
    for station in [1, 2, 3] {
        assert_eq!(rt; list.pick(&labels), Some(station));
    }
    Ok(())
}

#[test]
fn lists_refuse(rt: HostRuntime) -> Result<(), Fail> {
    assert!(rt; ListName::try_from(5).is_err());
    assert_eq!(rt;
        make::<ByAirtime>(Choice::Bucket(2, 128)).err(),
        Some(ListFault::Buckets)
    );
    let mut list = make::<ByAirtime>(Choice::Bucket(2, 126))?;
    assert_eq!(rt; list.enter(1023, &[])?, Entered::New);
    assert_eq!(rt; list.enter(1024, &[]), Err(ListFault::Station));
    assert_eq!(rt; list.waiting(), 1);
    list.empty();
    assert_eq!(rt; list.pick(&[]), None);
    Ok(())
}

// Any of the five lists takes at most 16 KiB, with the labels and grades of each kind.
#[test]
fn lists_are_small(rt: HostRuntime) {
    assert!(rt; size_of::<AnyList<ByAirtime>>() <= 16384);
    assert!(rt; size_of::<AnyList<ByChance>>() <= 16384);
    assert!(rt; size_of::<AnyList<ByMargin>>() <= 16384);
}

fn enters() -> Result<(), ListFault> {
    Err(ListFault::Station)
}

fn in_book() -> Result<(), BookFault> {
    Ok(enters()?)
}

fn anywhere() -> Result<(), Refusal> {
    Ok(in_book()?)
}

#[test]
fn refusals_wrapped(rt: HostRuntime) -> Result<(), Fail> {
    let Err(refusal) = anywhere() else {
        return Err(Fail::new("not refused"));
    };
    assert_eq!(rt; refusal.number(), 14);
    assert_eq!(rt; refusal.place(), 0);
    assert_eq!(rt; refusal.layer(), Layer::List);
    Ok(())
}
