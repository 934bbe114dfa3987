// The worked checks on the code itself, and the check of a plan that was worked out.
use super::book_tests::{AIRTIMES, HEADS, STARTS};
use super::caller::plan_from;
use checks::check::check;
use choice::make::{Choice, make};
use kinds::airtime::Airtime;
use kinds::airtime::by::ByAirtime;
use net::star::Net;
use refusals::told::{Fault, Layer, Told};
use std::test::Fail;

// How the check refuses, by its number and place.
fn refused(number: u8, place: u16) -> Option<Told> {
    Some(Told {
        number,
        place,
        layer: Layer::Check,
    })
}

#[test]
fn plans_checked(rt: HostRuntime) -> Result<(), Fail> {
    let mut net = Net::single();
    net.fill(&STARTS, &HEADS)?;
    let grades = AIRTIMES.map(Airtime::new);
    for (gateway, labels, entries, told) in [
        (0, [0, 3, 1, 4], [65534, 3, 1, 2], None),
        (4, [0, 3, 1, 4], [65534, 3, 1, 2], refused(7, 0)),
        (0, [0, 3, 1, 4], [65535, 3, 1, 2], refused(16, 0)),
        (0, [0, 3, 1, 5], [65534, 3, 1, 2], refused(17, 3)),
        (0, [0, 4, 1, 5], [65534, 0, 1, 2], refused(19, 3)),
    ] {
        let labels = labels.map(Airtime::new);
        let fault = check::<ByAirtime>(&net, &grades, gateway, &labels, &entries).err();
        assert_eq!(rt; fault.map(|fault| fault.told()), told);
    }
    Ok(())
}

// Two stations have their labels from each other.
#[test]
fn round_in_a_ring(rt: HostRuntime) -> Result<(), Fail> {
    let mut net = Net::single();
    net.fill(&[0, 0, 1, 2], &[2, 1])?;
    let grades = [0, 0].map(Airtime::new);
    let labels = [0, 5, 5].map(Airtime::new);
    let fault = check::<ByAirtime>(&net, &grades, 0, &labels, &[65534, 1, 0]).err();
    assert_eq!(rt; fault.map(|fault| fault.told()), refused(18, 1));
    Ok(())
}

#[test]
fn worked_out_and_checked(rt: HostRuntime) -> Result<(), Fail> {
    let mut net = Net::single();
    net.fill(&STARTS, &HEADS)?;
    let grades = AIRTIMES.map(Airtime::new);
    let mut labels = [Airtime::new(0); 4];
    let mut entries = [65535; 4];
    let mut list = make::<ByAirtime>(Choice::FirstIn)?;
    let made = plan_from::<ByAirtime, _>(
        &net,
        &grades,
        &mut labels,
        &mut entries,
        &mut list,
        0,
        10,
    )?;
    assert_eq!(rt; made.picks, 6);
    assert_eq!(rt; made.waiting, 0);
    assert_eq!(rt; made.checked, Ok(()));
    Ok(())
}
