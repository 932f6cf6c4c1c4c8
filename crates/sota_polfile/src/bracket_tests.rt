// A bracket file that was made by hand, and each fault once.
use super::*;
use crate::tests::{CITY_HEAD, Case, HALF, faults_are};
use sota_units::NoMemory;
use std::alloc::{AllocError, Global};
use std::test::Fail;

// From 1 to 3 in 3 ticks: two rows of two entries, and none at the destination.
const CITY: [u8; 132] = [
    0x53, 0x4f, 0x54, 0x41, 0x50, 0x4f, 0x4c, 0x32, 0x00, 0x00, 0x00, 0x03, 0x00, 0x00, 0x00, 0x03,
    0x00, 0x00, 0x00, 0x01, 0x00, 0x00, 0x00, 0x03, 0x00, 0x00, 0x00, 0x04, 0x00, 0x00, 0x00, 0x02,
    0x00, 0x00, 0x00, 0x02, 0x00, 0x00, 0x00, 0x01, 0x06, 0xf0, 0x5b, 0x59, 0xd3, 0xb2, 0x00, 0x00,
    0x06, 0xf0, 0x5b, 0x59, 0xd3, 0xb2, 0x00, 0x00, 0x00, 0x00, 0x00, 0x03, 0x0a, 0x68, 0x89, 0x06,
    0xbd, 0x8b, 0x00, 0x00, 0x0a, 0x68, 0x89, 0x06, 0xbd, 0x8b, 0x00, 0x00, 0x00, 0x00, 0x00, 0x01,
    0x00, 0x00, 0x00, 0x02, 0x00, 0x00, 0x00, 0x02, 0x06, 0xf0, 0x5b, 0x59, 0xd3, 0xb2, 0x00, 0x00,
    0x06, 0xf0, 0x5b, 0x59, 0xd3, 0xb2, 0x00, 0x00, 0x00, 0x00, 0x00, 0x02, 0x06, 0xf0, 0x5b, 0x59,
    0xd3, 0xb2, 0x00, 0x00, 0x06, 0xf0, 0x5b, 0x59, 0xd3, 0xb2, 0x00, 0x00, 0x00, 0x00, 0x00, 0x00,
    0x00, 0x00, 0x00, 0x00,
];

fn row(alloc: Global, first: u32, entries: &[(u32, u64)]) -> Result<BracketRow, AllocError> {
    let mut list = Vec::new(alloc);
    for (arc, value) in entries {
        list.push(BracketEntry {
            arc: *arc,
            lower: *value,
            upper: *value,
        })?;
    }
    let entries = BracketEntries::new(list);
    Ok(BracketRow { first, entries })
}

/// The rows of the city: where those of nodes 2 and 3 begin, and the entries of node 3.
fn rows(
    alloc: Global,
    second: u32,
    third: u32,
    last: &[(u32, u64)],
) -> Result<Vec<BracketRow>, NoMemory> {
    let mut rows = Vec::new(alloc);
    rows.push(row(alloc, 2, &[(1, HALF), (3, HALF + HALF / 2)])?)?;
    rows.push(row(alloc, second, &[(2, HALF), (2, HALF)])?)?;
    rows.push(row(alloc, third, last)?)?;
    Ok(rows)
}

/// The table of these parts, or its fault: Magic, which no table has, where rows are missing.
fn table_of(head: BracketHead, rows: Vec<BracketRow>) -> Result<BracketTable, PolicyFault> {
    if rows.len() as u64 != u64::from(head.nodes) {
        return Err(PolicyFault::Magic);
    }
    BracketTable::from_parts(head, rows)
}

#[test]
fn bracket_parts(rt: HostRuntime) -> Result<(), Fail> {
    let alloc = rt.alloc();
    let city = table_of(CITY_HEAD, rows(alloc, 1, 0, &[])?)?;
    assert_eq!(rt; write_bracket(alloc, &city)?.as_slice(), CITY.as_slice());
    Ok(())
}

#[test]
fn no_bracket_parts(rt: HostRuntime) -> Result<(), Fail> {
    let alloc = rt.alloc();
    let cases = [
        // The last budget is after the head's.
        (3, 3, 0, PolicyFault::Range(2)),
        (u32::MAX, 3, 0, PolicyFault::Range(2)),
        // The destination has a first budget.
        (1, 3, 1, PolicyFault::Range(3)),
        (1, 4, 0, PolicyFault::Range(0)),
    ];
    for (second, dest, third, fault) in cases {
        let head = BracketHead { dest, ..CITY_HEAD };
        let table = table_of(head, rows(alloc, second, third, &[])?);
        assert_eq!(rt; table.err(), Some(fault));
    }
    let entry_at_dest = table_of(CITY_HEAD, rows(alloc, 1, 0, &[(0, 0)])?);
    assert_eq!(rt; entry_at_dest.err(), Some(PolicyFault::Range(3)));
    Ok(())
}

#[test]
fn brackets_are_read(rt: HostRuntime) -> Result<(), Fail> {
    let alloc = rt.alloc();
    let AnyTable::Two(table) = read_any(alloc, &CITY)? else {
        return Err("another version".into());
    };
    assert_eq!(rt; *table.head(), CITY_HEAD);
    assert_eq!(rt; table.cells(), 4);
    assert_eq!(rt; write_bracket(alloc, &table)?.as_slice(), CITY.as_slice());
    let firsts = [2, 1, 0];
    for (row, first) in table.rows().iter().zip(firsts) {
        assert_eq!(rt; row.first, first);
        assert_eq!(rt; row.entries.is_empty(), first == 0);
    }
    assert_eq!(rt; read_policy(alloc, &CITY).err(), Some(PolicyFault::Magic));
    Ok(())
}

#[test]
fn policies_are_read_as_either(rt: HostRuntime) -> Result<(), Fail> {
    let alloc = rt.alloc();
    let head = PolicyHead {
        dest: 1,
        ..CITY_HEAD
    };
    let stuck = PolicyTable::from_parts(head, Vec::new(alloc))?;
    let bytes = write_policy(alloc, &stuck)?;
    assert!(rt; bytes.len() <= 32);
    let AnyTable::One(again) = read_any(alloc, &bytes)? else {
        return Err("another version".into());
    };
    assert_eq!(rt; *again.head(), head);
    Ok(())
}

/// The fault of a policy file of either version, none where it is read.
fn fault_of(alloc: Global, bytes: &[u8]) -> Option<PolicyFault> {
    // No file of these tests is longer.
    if bytes.len() > 200 {
        return None;
    }
    read_any(alloc, bytes).err()
}

// The first number of each file, which changes nothing.
const SOTA: u32 = 0x534f_5441;

const FAULTS: [Case; 18] = [
    // As version 1 its first row has very many entries.
    (132, 4, 0x504f_4c31, PolicyFault::Range(1)),
    (7, 0, SOTA, PolicyFault::Magic),
    (132, 4, 0x504f_4c33, PolicyFault::Magic),
    (8, 0, SOTA, PolicyFault::Truncated(0)),
    (27, 0, SOTA, PolicyFault::Truncated(0)),
    (132, 8, 0, PolicyFault::Range(0)),
    (28, 0, SOTA, PolicyFault::Truncated(28)),
    (35, 0, SOTA, PolicyFault::Truncated(28)),
    // The first budget of node 1, and its count.
    (132, 28, 3, PolicyFault::Range(1)),
    (132, 28, 65_538, PolicyFault::Range(1)),
    (132, 32, 3, PolicyFault::Range(1)),
    (75, 0, SOTA, PolicyFault::Truncated(56)),
    (76, 0, SOTA, PolicyFault::Truncated(76)),
    (131, 0, SOTA, PolicyFault::Truncated(124)),
    // The destination has a first budget, or an entry.
    (132, 124, 1, PolicyFault::Range(3)),
    (132, 128, 1, PolicyFault::Range(3)),
    // The destination is no node.
    (132, 8, 2, PolicyFault::Range(0)),
    // One byte too many.
    (133, 0, SOTA, PolicyFault::Trailing(132)),
];

#[test]
fn bracket_faults(rt: HostRuntime) -> Result<(), Fail> {
    faults_are(&rt, rt.alloc(), &CITY, fault_of, &FAULTS)
}
