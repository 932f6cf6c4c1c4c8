// The bracket of the city, as it is and with one number changed.
use super::*;
use crate::tests::city;
use sota_polfile::{BracketEntries, BracketEntry, BracketHead, BracketRow, BracketTable};
use sota_units::{Grain, NoMemory, NodeId};
use std::alloc::Global;
use std::test::Fail;

const HALF: u64 = 500_000_000_000_000_000;

const MOST: u64 = HALF + HALF / 2;

/// The entries of node 1 at 2 and 3 ticks, and of node 2 at 1 and 2 ticks.
const CITY: [(u32, u64, u64); 4] = [
    (1, HALF, HALF),
    (3, MOST, MOST),
    (2, HALF, HALF),
    (2, HALF, HALF),
];

fn row(alloc: Global, first: u32, entries: &[(u32, u64, u64)]) -> Result<BracketRow, NoMemory> {
    let mut list = Vec::new(alloc);
    for (arc, lower, upper) in entries {
        list.push(BracketEntry {
            arc: *arc,
            lower: *lower,
            upper: *upper,
        })?;
    }
    let entries = BracketEntries::new(list);
    Ok(BracketRow { first, entries })
}

/// A bracket for the city and for a network of this scale, with this first budget of node 2.
fn bracket(
    alloc: Global,
    scale: u32,
    second: u32,
    entries: [(u32, u64, u64); 4],
) -> Result<BracketTable, Fail> {
    let [a, b, c, d] = entries;
    let mut rows = Vec::new(alloc);
    rows.push(row(alloc, 2, &[a, b])?)?;
    rows.push(row(alloc, second, &[c, d])?)?;
    rows.push(row(alloc, 0, &[])?)?;
    table_of(scale, rows)
}

fn table_of(scale: u32, rows: Vec<BracketRow>) -> Result<BracketTable, Fail> {
    if rows.len() != 3 {
        return Err("another number of rows".into());
    }
    let head = BracketHead {
        nodes: 3,
        dest: 3,
        origin: 1,
        budget: 3,
        scale,
    };
    Ok(BracketTable::from_parts(head, rows)?)
}

#[test]
fn accepts_the_bracket_of_the_city(rt: HostRuntime) -> Result<(), Fail> {
    let network = city(rt.alloc())?;
    let wanted = Bracketed {
        origin: NodeId(1),
        dest: NodeId(3),
        budget: 3,
        lower: Grain::new(MOST).ok_or("a grain")?,
        upper: Grain::new(MOST).ok_or("a grain")?,
    };
    let table = bracket(rt.alloc(), 4, 1, CITY)?;
    assert_eq!(rt; check_bracket(&network, &table), Ok(wanted));
    let finer = bracket(rt.alloc(), 5, 1, CITY)?;
    assert_eq!(rt;
        check_bracket(&network, &finer),
        Err(BracketRejection::Scale)
    );
    Ok(())
}

#[test]
fn bracket_rejections(rt: HostRuntime) -> Result<(), Fail> {
    let network = city(rt.alloc())?;
    // The first budget of node 2, the place of an entry, and what it is made.
    let cases = [
        (1, 2, (2, HALF, HALF - 1), BracketRejection::Upper(2, 1)),
        (2, 2, (2, HALF, HALF), BracketRejection::Potential(2)),
        // The other arc is worth more than the upper value, and not the chosen one.
        (1, 1, (1, HALF, HALF), BracketRejection::Upper(1, 3)),
        (1, 2, (2, HALF + 1, HALF), BracketRejection::Lower(2, 1)),
        (1, 0, (0, HALF, HALF), BracketRejection::Lower(1, 2)),
        (1, 0, (4, HALF, 0), BracketRejection::NoArc(1, 2)),
        (1, 3, (3, HALF, 0), BracketRejection::WrongTail(2, 2)),
    ];
    for (second, place, entry, wanted) in cases {
        let mut entries = CITY;
        if let Some(changed) = entries.get_mut(place) {
            *changed = entry;
        }
        let table = bracket(rt.alloc(), 4, second, entries)?;
        let found = check_bracket(&network, &table);
        assert_eq!(rt; found, Err(wanted), "entry {place}");
        assert_eq!(rt;
            wanted.budget().is_some(),
            wanted.word() != b"Potential".as_slice()
        );
        assert!(rt; wanted.node().is_some());
    }
    Ok(())
}

#[test]
fn absent_uppers_are_whole(rt: HostRuntime) -> Result<(), Fail> {
    let network = city(rt.alloc())?;
    let uppers = [
        (HALF, Err(BracketRejection::Upper(1, 2))),
        // More than one whole counts as one whole.
        (u64::MAX, Ok(Grain::ONE)),
    ];
    for (upper, wanted) in uppers {
        let mut rows = Vec::new(rt.alloc());
        rows.push(row(rt.alloc(), 2, &[(0, 0, upper), (0, 0, upper)])?)?;
        rows.push(row(rt.alloc(), 1, &[])?)?;
        rows.push(row(rt.alloc(), 0, &[])?)?;
        let table = table_of(4, rows)?;
        let found = check_bracket(&network, &table).map(|found| found.upper);
        assert_eq!(rt; found, wanted);
    }
    Ok(())
}
