// What is built of pairs, and what is read of it.
use crate::{HistFault, Histogram};
use sota_units::{Mass, Scale, Tick};
use std::test::Fail;

/// The scale of all the tests.
fn four() -> Result<Scale, Fail> {
    Ok(Scale::new(4).ok_or("a scale")?)
}

// Pairs over the scale 4, and the faults of a histogram of them by the total's equality and by its
// limit.
#[test]
fn faults(rt: HostRuntime) -> Result<(), Fail> {
    let table = [
        (
            [(Tick(0), Mass(1)), (Tick(2), Mass(3))],
            Some(HistFault::ZeroTick(0)),
            Some(HistFault::ZeroTick(0)),
        ),
        (
            [(Tick(2), Mass(1)), (Tick(2), Mass(3))],
            Some(HistFault::RepeatedTick(Tick(2))),
            Some(HistFault::RepeatedTick(Tick(2))),
        ),
        (
            [(Tick(2), Mass(3)), (Tick(3), Mass(2))],
            Some(HistFault::Sum(5)),
            Some(HistFault::Sum(5)),
        ),
        (
            [(Tick(2), Mass(3)), (Tick(3), Mass(0))],
            Some(HistFault::Sum(3)),
            None,
        ),
        (
            [(Tick(0), Mass(0)), (Tick(3), Mass(0))],
            Some(HistFault::Sum(0)),
            None,
        ),
        ([(Tick(2), Mass(3)), (Tick(1), Mass(1))], None, None),
    ];
    for (pairs, exact, at_most) in &table {
        let built = Histogram::build(rt.alloc(), four()?, pairs.as_slice());
        assert_eq!(rt; built.err(), *exact);
        let built = Histogram::at_most(rt.alloc(), four()?, pairs.as_slice());
        assert_eq!(rt; built.err(), *at_most);
    }
    Ok(())
}

// A histogram that is built of pairs in any order, and what is read of it.
#[test]
fn built(rt: HostRuntime) -> Result<(), Fail> {
    let pairs = [(Tick(5), Mass(1)), (Tick(3), Mass(2)), (Tick(0), Mass(0))];
    let time = Histogram::at_most(rt.alloc(), four()?, &pairs)?;
    assert!(rt; time.pairs() == [(Tick(3), Mass(2)), (Tick(5), Mass(1))].as_slice());
    assert!(rt; !time.is_closed());
    assert_eq!(rt; time.total(), 3);
    assert_eq!(rt; time.within(Tick(4)).len(), 1);
    for (draw, picked) in &[(1, Some(Tick(3))), (2, Some(Tick(5))), (3, None)] {
        assert_eq!(rt; time.pick(*draw), *picked);
    }
    Ok(())
}

// The first and the last tick of a histogram with a pair.
fn ends(time: &Histogram) -> Option<(Tick, Tick)> {
    if time.is_closed() {
        None
    } else {
        Some((time.least(), time.greatest()))
    }
}

// Histograms that are made of others, of pairs in order, of one tick and of nothing.
#[test]
fn made(rt: HostRuntime) -> Result<(), Fail> {
    let pairs = [(Tick(3), Mass(1)), (Tick(5), Mass(3))];
    let rising = Histogram::from_rising(rt.alloc(), &pairs)
        .ok()
        .ok_or("pairs")?;
    let certain = Histogram::certain(rt.alloc(), four()?, Tick(3))
        .ok()
        .ok_or("certain")?;
    let copy = rising.copy(rt.alloc()).ok().ok_or("a copy")?;
    let closed = Histogram::closed();
    assert_eq!(rt; ends(&rising), Some((Tick(3), Tick(5))));
    assert_eq!(rt; ends(&closed), None);
    assert_eq!(rt; closed.total(), 0);
    assert_eq!(rt; copy.first_difference(&rising), None);
    assert_eq!(rt; copy.first_difference(&certain), Some(Tick(3)));
    assert_eq!(rt; copy.first_difference(&closed), Some(Tick(3)));
    Ok(())
}

#[test]
fn words(rt: HostRuntime) -> Result<(), Fail> {
    assert!(rt; HistFault::RepeatedTick(Tick(2)).word() == b"RepeatedTick".as_slice());
    assert!(rt; HistFault::NoMemory.word() == b"NoMemory".as_slice());
    Ok(())
}
