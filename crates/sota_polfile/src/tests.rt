// Vectors that were made by hand, and each fault once.
use super::*;
use sota_units::NoMemory;
use std::alloc::{AllocError, Global};
use std::process::Abort;
use std::test::Fail;

// Two rows of two entries.
const CITY: [u8; 104] = [
    0x53, 0x4f, 0x54, 0x41, 0x50, 0x4f, 0x4c, 0x31, 0x00, 0x00, 0x00, 0x03, 0x00, 0x00, 0x00, 0x03,
    0x00, 0x00, 0x00, 0x01, 0x00, 0x00, 0x00, 0x03, 0x00, 0x00, 0x00, 0x04, 0x00, 0x00, 0x00, 0x02,
    0x00, 0x00, 0x00, 0x01, 0x00, 0x00, 0x00, 0x02, 0x00, 0x00, 0x00, 0x02, 0x00, 0x00, 0x00, 0x01,
    0x06, 0xf0, 0x5b, 0x59, 0xd3, 0xb2, 0x00, 0x00, 0x00, 0x00, 0x00, 0x03, 0x0a, 0x68, 0x89, 0x06,
    0xbd, 0x8b, 0x00, 0x00, 0x00, 0x00, 0x00, 0x02, 0x00, 0x00, 0x00, 0x01, 0x00, 0x00, 0x00, 0x02,
    0x00, 0x00, 0x00, 0x02, 0x06, 0xf0, 0x5b, 0x59, 0xd3, 0xb2, 0x00, 0x00, 0x00, 0x00, 0x00, 0x02,
    0x06, 0xf0, 0x5b, 0x59, 0xd3, 0xb2, 0x00, 0x00,
];

// One road that is always in time.
const SURE: [u8; 56] = [
    0x53, 0x4f, 0x54, 0x41, 0x50, 0x4f, 0x4c, 0x31, 0x00, 0x00, 0x00, 0x02, 0x00, 0x00, 0x00, 0x02,
    0x00, 0x00, 0x00, 0x01, 0x00, 0x00, 0x00, 0x05, 0x00, 0x00, 0x00, 0x01, 0x00, 0x00, 0x00, 0x01,
    0x00, 0x00, 0x00, 0x01, 0x00, 0x00, 0x00, 0x05, 0x00, 0x00, 0x00, 0x01, 0x00, 0x00, 0x00, 0x01,
    0x0d, 0xe0, 0xb6, 0xb3, 0xa7, 0x64, 0x00, 0x00,
];

// One road that is always late.
const LATE: [u8; 56] = [
    0x53, 0x4f, 0x54, 0x41, 0x50, 0x4f, 0x4c, 0x31, 0x00, 0x00, 0x00, 0x02, 0x00, 0x00, 0x00, 0x02,
    0x00, 0x00, 0x00, 0x01, 0x00, 0x00, 0x00, 0x04, 0x00, 0x00, 0x00, 0x01, 0x00, 0x00, 0x00, 0x01,
    0x00, 0x00, 0x00, 0x01, 0x00, 0x00, 0x00, 0x04, 0x00, 0x00, 0x00, 0x01, 0x00, 0x00, 0x00, 0x01,
    0x00, 0x00, 0x00, 0x00, 0x00, 0x00, 0x00, 0x00,
];

// No row at all.
const STUCK: [u8; 32] = [
    0x53, 0x4f, 0x54, 0x41, 0x50, 0x4f, 0x4c, 0x31, 0x00, 0x00, 0x00, 0x02, 0x00, 0x00, 0x00, 0x02,
    0x00, 0x00, 0x00, 0x01, 0x00, 0x00, 0x00, 0x04, 0x00, 0x00, 0x00, 0x01, 0x00, 0x00, 0x00, 0x00,
];

/// From 1 to 3 in 3 ticks: the head of the city's file of either version.
pub(crate) const CITY_HEAD: PolicyHead = PolicyHead {
    nodes: 3,
    dest: 3,
    origin: 1,
    budget: 3,
    scale: 4,
};

pub(crate) const HALF: u64 = 500_000_000_000_000_000;

fn row(
    alloc: Global,
    node: u32,
    first: u32,
    entries: &[PolicyEntry],
) -> Result<PolicyRow, AllocError> {
    let entries = PolicyEntries::new(Vec::from_slice(alloc, entries)?);
    Ok(PolicyRow {
        node,
        first,
        entries,
    })
}

fn city_rows(alloc: Global, second: u32) -> Result<Vec<PolicyRow>, NoMemory> {
    let first = [
        PolicyEntry {
            arc: 1,
            value: HALF,
        },
        PolicyEntry {
            arc: 3,
            value: HALF + HALF / 2,
        },
    ];
    let entry = PolicyEntry {
        arc: 2,
        value: HALF,
    };
    let mut rows = Vec::new(alloc);
    rows.push(row(alloc, 1, 2, &first)?)?;
    rows.push(row(alloc, second, 1, &[entry, entry])?)?;
    Ok(rows)
}

fn one_row(alloc: Global, first: u32, value: u64) -> Result<Vec<PolicyRow>, NoMemory> {
    let mut rows = Vec::new(alloc);
    rows.push(row(alloc, 1, first, &[PolicyEntry { arc: 1, value }])?)?;
    Ok(rows)
}

fn road_head(budget: u32) -> PolicyHead {
    PolicyHead {
        nodes: 2,
        dest: 2,
        origin: 1,
        budget,
        scale: 1,
    }
}

/// The file of the table of these parts is this one.
fn same_file(
    rt: &impl Abort,
    alloc: Global,
    head: PolicyHead,
    rows: Vec<PolicyRow>,
    bytes: &[u8],
) -> Result<(), Fail> {
    let table = PolicyTable::from_parts(head, rows)?;
    assert_eq!(rt; write_policy(alloc, &table)?.as_slice(), bytes);
    Ok(())
}

#[test]
fn parts(rt: HostRuntime) -> Result<(), Fail> {
    let alloc = rt.alloc();
    same_file(&rt, alloc, CITY_HEAD, city_rows(alloc, 2)?, &CITY)?;
    same_file(
        &rt,
        alloc,
        road_head(5),
        one_row(alloc, 5, 2 * HALF)?,
        &SURE,
    )?;
    same_file(&rt, alloc, road_head(4), one_row(alloc, 4, 0)?, &LATE)?;
    same_file(&rt, alloc, road_head(4), Vec::new(alloc), &STUCK)
}

#[test]
fn no_parts(rt: HostRuntime) -> Result<(), Fail> {
    let alloc = rt.alloc();
    for (second, fault) in [(1, PolicyFault::Order(2)), (3, PolicyFault::Range(2))] {
        let table = PolicyTable::from_parts(CITY_HEAD, city_rows(alloc, second)?);
        assert_eq!(rt; table.err(), Some(fault));
    }
    let headless = PolicyTable::from_parts(road_head(65_536), Vec::new(alloc));
    assert_eq!(rt; headless.err(), Some(PolicyFault::Range(0)));
    Ok(())
}

#[test]
fn files_are_read(rt: HostRuntime) -> Result<(), Fail> {
    let alloc = rt.alloc();
    let files = [
        (CITY.as_slice(), CITY_HEAD, 2, 4),
        (SURE.as_slice(), road_head(5), 1, 1),
        (LATE.as_slice(), road_head(4), 1, 1),
        (STUCK.as_slice(), road_head(4), 0, 0),
    ];
    for (bytes, head, rows, cells) in files {
        assert!(rt; bytes.len() <= 104);
        let table = read_policy(alloc, bytes)?;
        assert_eq!(rt; *table.head(), head);
        assert_eq!(rt; table.rows().len(), rows);
        assert_eq!(rt; table.cells(), cells);
        assert_eq!(rt; write_policy(alloc, &table)?.as_slice(), bytes);
    }
    Ok(())
}

// Nodes and budgets of the city, and the arc and the value that are found there.
const FOUND: [(u32, u32, Option<(u32, u64)>); 10] = [
    (1, 1, None),
    (1, 2, Some((1, HALF))),
    (1, 3, Some((3, HALF + HALF / 2))),
    (1, 4, None),
    (2, 0, None),
    (2, 1, Some((2, HALF))),
    (2, 2, Some((2, HALF))),
    (2, 3, None),
    (0, 1, None),
    (3, 1, None),
];

/// What is found stands where it should.
fn all_found(
    rt: &impl Abort,
    table: &PolicyTable,
    cases: &[(u32, u32, Option<(u32, u64)>)],
) -> Result<(), Fail> {
    for (node, budget, found) in cases {
        let entry = table
            .entry(*node, *budget)
            .map(|entry| (entry.arc, entry.value));
        assert_eq!(rt; entry, *found, "at {node} {budget}");
    }
    Ok(())
}

#[test]
fn entries_are_found(rt: HostRuntime) -> Result<(), Fail> {
    let table = read_policy(rt.alloc(), &CITY)?;
    all_found(&rt, &table, &FOUND)?;
    for (node, place) in [(0, Err(0)), (1, Ok(0)), (2, Ok(1)), (3, Err(2))] {
        assert_eq!(rt; table.place(node), place);
    }
    for row in table.rows() {
        assert_eq!(rt; row.entries.as_slice().len(), 2);
        assert!(rt; !row.entries.is_empty());
    }
    Ok(())
}

/// Writes a number of four bytes over those at a place.
fn put(bytes: &mut [u8], place: usize, number: u32) {
    for (i, byte) in number.to_be_bytes().iter().enumerate() {
        let at = place.saturating_add(i);
        if at < bytes.len() {
            bytes[at] = *byte;
        }
    }
}

/// So many bytes of a file, with a number of four bytes at a place, and their fault.
pub(crate) type Case = (usize, usize, u32, PolicyFault);

/// The first bytes of a file, so many, or zeros after all of them, with a number at a place.
fn changed(
    alloc: Global,
    file: &[u8],
    len: usize,
    place: usize,
    number: u32,
) -> Result<Vec<u8>, AllocError> {
    let mut bytes = Vec::from_slice(alloc, file)?;
    bytes.resize(len, 0)?;
    put(&mut bytes, place, number);
    Ok(bytes)
}

/// The fault of a policy file, none where it is read.
fn fault_of(alloc: Global, bytes: &[u8]) -> Option<PolicyFault> {
    // No file of these tests is longer.
    if bytes.len() > 200 {
        return None;
    }
    read_policy(alloc, bytes).err()
}

const FAULTS: [Case; 25] = [
    (104, 4, 0x504f_4c32, PolicyFault::Magic),
    (31, 8, 3, PolicyFault::Truncated(0)),
    (104, 8, 0, PolicyFault::Range(0)),
    (104, 8, 1_000_001, PolicyFault::Range(0)),
    (104, 12, 0, PolicyFault::Range(0)),
    (104, 12, 4, PolicyFault::Range(0)),
    (104, 16, 0, PolicyFault::Range(0)),
    (104, 16, 4, PolicyFault::Range(0)),
    (104, 20, 65_536, PolicyFault::Range(0)),
    (104, 24, 0, PolicyFault::Range(0)),
    (104, 24, 1_000_000_001, PolicyFault::Range(0)),
    // The head alone, which claims very many rows.
    (32, 28, u32::MAX, PolicyFault::Truncated(32)),
    (104, 28, 3, PolicyFault::Truncated(104)),
    (104, 28, 1, PolicyFault::Trailing(68)),
    (104, 32, 0, PolicyFault::Range(1)),
    (104, 32, 3, PolicyFault::Range(1)),
    (104, 32, 4, PolicyFault::Range(1)),
    (104, 36, 3, PolicyFault::Range(1)),
    (104, 40, 0, PolicyFault::Range(1)),
    (104, 40, 3, PolicyFault::Range(1)),
    (104, 68, 1, PolicyFault::Order(2)),
    (104, 68, 0, PolicyFault::Order(2)),
    (104, 68, 3, PolicyFault::Range(2)),
    (103, 32, 1, PolicyFault::Truncated(92)),
    // One byte too many.
    (105, 0, 0x534f_5441, PolicyFault::Trailing(104)),
];

/// Files that differ so from this one have these faults.
pub(crate) fn faults_are<F: Fn(Global, &[u8]) -> Option<PolicyFault>>(
    rt: &impl Abort,
    alloc: Global,
    file: &[u8],
    fault_of: F,
    cases: &[Case],
) -> Result<(), Fail>
    requires { F.IsAlwaysCallable fault_of }
{
    for (len, place, number, fault) in cases {
        let bytes = changed(alloc, file, *len, *place, *number)?;
        assert_eq!(rt;
            fault_of(alloc, &bytes),
            Some(*fault),
            "{number} at {place} of {len}"
        );
    }
    Ok(())
}

#[test]
fn faults(rt: HostRuntime) -> Result<(), Fail> {
    faults_are(&rt, rt.alloc(), &CITY, fault_of, &FAULTS)?;
    let mut bytes = changed(rt.alloc(), &CITY, 104, 36, u32::MAX)?;
    put(&mut bytes, 40, u32::MAX);
    assert_eq!(rt; fault_of(rt.alloc(), &bytes), Some(PolicyFault::Range(1)));
    Ok(())
}

#[test]
fn prefixes(rt: HostRuntime) -> Result<(), Fail> {
    let table = read_policy(rt.alloc(), &CITY)?;
    for len in 0..CITY.len() {
        let fault = cut_fault(&table, len as u64);
        assert_eq!(rt; fault_of(rt.alloc(), &CITY[..len]), Some(fault), "at {len}");
    }
    let cuts = [
        (7, PolicyFault::Magic),
        (31, PolicyFault::Truncated(0)),
        (32, PolicyFault::Truncated(32)),
        (43, PolicyFault::Truncated(32)),
        (103, PolicyFault::Truncated(92)),
    ];
    for (len, fault) in cuts {
        assert_eq!(rt; cut_fault(&table, len), fault);
    }
    Ok(())
}
