// Policies and brackets, byte for byte, with ample memory.
ghost use Rattle.std.specs.Prelude.{◌≡◌, ◌<◌};

use crate::tests::{one_road, triangle};
use crate::{Ask, AskFault, Session};
use sota_polfile::{AnyTable, write_bracket, write_policy};
use sota_units::{NoMemory, NodeId, Steps};
use std::alloc::Global;
use std::marker::Brand;
use std::process::Abort;
use std::sync::ledger::{Blank, Ledger};
use std::test::Fail;

/// Which file of an ask is made.
#[derive(Clone, Copy)]
enum Kind {
    Policy,
    Bracket,
}

fn table_counted<M: Ledger, P: Ledger>(
    session: &mut Session,
    kind: Kind,
    ask: Ask,
    products: Blank,
    pushes: Blank,
) -> Result<AnyTable, AskFault>
    requires products { (products.name ≡ M.name) × (products.parts ≡ M.parts)
        × (0 < products.parts) }
    requires pushes { (pushes.name ≡ P.name) × (pushes.parts ≡ P.parts)
        × (0 < pushes.parts) }
{
    let mut products = Steps::<M>::new(products);
    let mut pushes = Steps::<P>::new(pushes);
    match kind {
        Kind::Policy => {
            let table = session.policy(ask, &mut products, &mut pushes)?;
            Ok(AnyTable::One(table))
        }
        Kind::Bracket => {
            let table = session.bracket(ask, &mut products, &mut pushes)?;
            Ok(AnyTable::Two(table))
        }
    }
}

/// The table of an ask, by its origin, destination and budget.
fn table_of(
    session: &mut Session,
    kind: Kind,
    (origin, dest, budget): (u32, u32, u32),
) -> Result<AnyTable, AskFault> {
    let ask = Ask {
        origin: NodeId(origin),
        dest: NodeId(dest),
        budget,
    };
    table_counted::<Brand, Brand>(session, kind, ask, Blank::new(1), Blank::new(1))
}

fn bytes_of(alloc: Global, table: &AnyTable) -> Result<Vec<u8>, NoMemory> {
    match table {
        AnyTable::One(table) => write_policy(alloc, table),
        AnyTable::Two(table) => write_bracket(alloc, table),
    }
}

// The triangle's policy from 1 to 3 in 3 ticks, in numbers of four bytes: two rows of two entries.
const TRIANGLE_POLICY: [u32; 26] = [
    0x534f_5441,
    0x504f_4c31,
    3,
    3,
    1,
    3,
    4,
    2,
    1,
    2,
    2,
    1,
    0x06f0_5b59,
    0xd3b2_0000,
    3,
    0x0a68_8906,
    0xbd8b_0000,
    2,
    1,
    2,
    2,
    0x06f0_5b59,
    0xd3b2_0000,
    2,
    0x06f0_5b59,
    0xd3b2_0000,
];

// One road of 5 ticks is always in time. Who is there already, or cannot be in time, has no row.
const SURE: [u32; 14] = [
    0x534f_5441,
    0x504f_4c31,
    2,
    2,
    1,
    5,
    1,
    1,
    1,
    5,
    1,
    1,
    0x0de0_b6b3,
    0xa764_0000,
];

const THERE: [u32; 8] = [0x534f_5441, 0x504f_4c31, 2, 2, 2, 5, 1, 0];

const LATE_POLICY: [u32; 8] = [0x534f_5441, 0x504f_4c31, 2, 2, 1, 4, 1, 0];

// The triangle's bracket from 1 to 3 in 3 ticks, in numbers of four bytes: two entries at each node
// but the destination.
const TRIANGLE_BRACKET: [u32; 33] = [
    0x534f_5441,
    0x504f_4c32,
    3,
    3,
    1,
    3,
    4,
    2,
    2,
    1,
    0x06f0_5b59,
    0xd3b2_0000,
    0x06f0_5b59,
    0xd3b2_0000,
    3,
    0x0a68_8906,
    0xbd8b_0000,
    0x0a68_8906,
    0xbd8b_0000,
    1,
    2,
    2,
    0x06f0_5b59,
    0xd3b2_0000,
    0x06f0_5b59,
    0xd3b2_0000,
    2,
    0x06f0_5b59,
    0xd3b2_0000,
    0x06f0_5b59,
    0xd3b2_0000,
    0,
    0,
];

// One road of 5 ticks is too long for a budget of 4: least times stand without an entry. No road
// leads back from its end.
const LATE_BRACKET: [u32; 11] = [0x534f_5441, 0x504f_4c32, 2, 2, 1, 4, 1, 5, 0, 0, 0];

const BACK: [u32; 11] = [0x534f_5441, 0x504f_4c32, 2, 1, 2, 9, 1, 0, 0, 65536, 0];

/// The file of an ask has these numbers, of four bytes each.
fn same_file(
    rt: &impl Abort,
    alloc: Global,
    session: &mut Session,
    (kind, ask): (Kind, (u32, u32, u32)),
    numbers: &[u32],
) -> Result<(), Fail> {
    let table = table_of(session, kind, ask).ok().ok_or("a table")?;
    let file = bytes_of(alloc, &table)?;
    let mut bytes = Vec::new(alloc);
    for number in numbers {
        bytes.extend_from_slice(&number.to_be_bytes())?;
    }
    assert!(rt; file.as_slice() == bytes.as_slice());
    Ok(())
}

#[test]
fn files_of_the_triangle(rt: HostRuntime) -> Result<(), Fail> {
    let mut session = triangle(rt.alloc())?;
    let ask = (1, 3, 3);
    same_file(
        &rt,
        rt.alloc(),
        &mut session,
        (Kind::Policy, ask),
        &TRIANGLE_POLICY,
    )?;
    same_file(
        &rt,
        rt.alloc(),
        &mut session,
        (Kind::Bracket, ask),
        &TRIANGLE_BRACKET,
    )
}

#[test]
fn files_of_one_road(rt: HostRuntime) -> Result<(), Fail> {
    let mut session = one_road(rt.alloc(), 5)?;
    let files = [
        (Kind::Policy, (1, 2, 5), SURE.as_slice()),
        (Kind::Policy, (2, 2, 5), THERE.as_slice()),
        (Kind::Policy, (1, 2, 4), LATE_POLICY.as_slice()),
        (Kind::Bracket, (1, 2, 4), LATE_BRACKET.as_slice()),
        (Kind::Bracket, (2, 1, 9), BACK.as_slice()),
    ];
    for (kind, ask, numbers) in files {
        same_file(&rt, rt.alloc(), &mut session, (kind, ask), numbers)?;
    }
    Ok(())
}

#[test]
fn refused_files(rt: HostRuntime) -> Result<(), Fail> {
    let mut session = one_road(rt.alloc(), 2)?;
    let refused = [
        (Kind::Policy, (1, 3, 5), AskFault::NoDest),
        (Kind::Bracket, (1, 2, 65536), AskFault::Budget),
    ];
    for (kind, ask, fault) in refused {
        assert_eq!(rt; table_of(&mut session, kind, ask).err(), Some(fault));
    }
    Ok(())
}
