// A policy that was worked by hand, and each rejection once.
use super::*;
use sota_hist::Histogram;
use sota_network::{Arc, Network};
use sota_polfile::{PolicyEntries, PolicyEntry, PolicyHead, PolicyRow, PolicyTable};
use sota_units::{Grain, Mass, NoMemory, NodeId, Scale, Tick};
use std::alloc::Global;
use std::test::Fail;

const HALF: u64 = 500_000_000_000_000_000;

/// The policy of the city from 1 to 3 in 3 ticks: the arcs and values of node 1 at 2 and 3 ticks,
/// and of node 2 at 1 and 2 ticks.
const CITY: [(u32, u64); 4] = [(1, HALF), (3, HALF + HALF / 2), (2, HALF), (2, HALF)];

/// From 1 to 3 by way of 2 in 2 or 4 ticks, or straight in 3 with the chance 3/4, or else never.
pub(crate) fn city(alloc: Global) -> Result<Network, NoMemory> {
    let mut arcs = Vec::new(alloc);
    arcs.push(Arc {
        tail: NodeId(1),
        head: NodeId(2),
        time: Histogram::from_rising(alloc, &[(Tick(1), Mass(4))])?,
    })?;
    arcs.push(Arc {
        tail: NodeId(2),
        head: NodeId(3),
        time: Histogram::from_rising(alloc, &[(Tick(1), Mass(2)), (Tick(3), Mass(2))])?,
    })?;
    arcs.push(Arc {
        tail: NodeId(1),
        head: NodeId(3),
        time: Histogram::from_rising(alloc, &[(Tick(3), Mass(3))])?,
    })?;
    let scale = Scale::new(4).unwrap_or(Scale::ONE);
    Network::build(alloc, 3, scale, arcs)
}

/// The row of a node with two entries.
fn row(
    alloc: Global,
    node: u32,
    first: u32,
    entries: [(u32, u64); 2],
) -> Result<PolicyRow, NoMemory> {
    let mut list = Vec::new(alloc);
    for (arc, value) in entries {
        list.push(PolicyEntry { arc, value })?;
    }
    let entries = PolicyEntries::new(list);
    Ok(PolicyRow {
        node,
        first,
        entries,
    })
}

/// A policy of these entries for the city, and a network of so many nodes and this scale.
fn policy(
    alloc: Global,
    nodes: u32,
    scale: u32,
    entries: [(u32, u64); 4],
) -> Result<PolicyTable, Fail> {
    let head = PolicyHead {
        nodes,
        dest: 3,
        origin: 1,
        budget: 3,
        scale,
    };
    let [first, second, third, fourth] = entries;
    let mut rows = Vec::new(alloc);
    rows.push(row(alloc, 1, 2, [first, second])?)?;
    rows.push(row(alloc, 2, 1, [third, fourth])?)?;
    Ok(PolicyTable::from_parts(head, rows)?)
}

#[test]
fn accepts_the_city(rt: HostRuntime) -> Result<(), Fail> {
    let network = city(rt.alloc())?;
    let table = policy(rt.alloc(), 3, 4, CITY)?;
    let wanted = Certified {
        origin: NodeId(1),
        dest: NodeId(3),
        budget: 3,
        lower: Grain::new(750_000_000_000_000_000).ok_or("a grain")?,
    };
    assert_eq!(rt; check(&network, &table), Ok(wanted));
    let larger = policy(rt.alloc(), 4, 4, CITY)?;
    assert_eq!(rt; check(&network, &larger), Err(Rejection::Size));
    let finer = policy(rt.alloc(), 3, 5, CITY)?;
    assert_eq!(rt; check(&network, &finer), Err(Rejection::Scale));
    Ok(())
}

#[test]
fn rejections(rt: HostRuntime) -> Result<(), Fail> {
    let network = city(rt.alloc())?;
    // Each changes one entry of the city's.
    let cases = [
        // One unit more than the arc is worth.
        (2, (2, HALF + 1), Rejection::Value(2, 1)),
        (1, (3, HALF + HALF / 2 + 1), Rejection::Value(1, 3)),
        (0, (4, HALF), Rejection::NoArc(1, 2)),
        (1, (u32::MAX, 0), Rejection::NoArc(1, 3)),
        (2, (3, HALF), Rejection::WrongTail(2, 1)),
        // A value and no arc.
        (3, (0, HALF), Rejection::Value(2, 2)),
        // No table's value is so great.
        (0, (1, u64::MAX), Rejection::Value(1, 2)),
    ];
    for (place, entry, wanted) in cases {
        let mut entries = CITY;
        if let Some(changed) = entries.get_mut(place) {
            *changed = entry;
        }
        let table = policy(rt.alloc(), 3, 4, entries)?;
        assert_eq!(rt; check(&network, &table), Err(wanted), "entry {place}");
    }
    Ok(())
}
