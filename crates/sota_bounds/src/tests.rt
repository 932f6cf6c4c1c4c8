// Each call once with ample memory, on small networks.
ghost use Rattle.std.specs.Prelude.{◌≡◌, ◌≤◌, ◌∷◌, [], length, IfOk};

use crate::{
    AskFault, AskRegion, RangeFault, RegionFault, affected, check_range, least_from, least_to,
    region,
};
use sota_hist::Histogram;
use sota_kept::LeastTime;
use sota_network::{Arc, Network};
use sota_units::{ArcId, Mass, NoMemory, NodeId, Scale, Tick};
use std::alloc::Global;
use std::test::Fail;

const NONE: LeastTime = LeastTime::NONE;

fn some(time: u64) -> LeastTime
    requires { time ≤ 3 }
{
    LeastTime::some(time)
}

/// From 1 to 3 by way of 2 in two ticks, for the straight arc is closed; and from 3 on to 4.
fn barred_triangle(alloc: Global) -> Result<Network, NoMemory>
    ensures nodes { IfOk result (λ network. network.nodes ≡ 4) }
    ensures arcs { IfOk result (λ network. length network.arcs ≡ 4) }
{
    let mut arcs = Vec::new(alloc);
    arcs.push(Arc::certain(alloc, NodeId(1), NodeId(2), Scale::ONE, Tick(1))?)?;
    arcs.push(Arc::certain(alloc, NodeId(2), NodeId(3), Scale::ONE, Tick(1))?)?;
    arcs.push(Arc::certain(alloc, NodeId(3), NodeId(4), Scale::ONE, Tick(1))?)?;
    arcs.push(Arc {
        tail: NodeId(1),
        head: NodeId(3),
        time: Histogram::closed(),
    })?;
    Network::build(alloc, 4, Scale::ONE, arcs)
}

// No walk to node 4 but through the destination, and none over the closed arc.
#[test]
fn times_of_a_triangle(rt: HostRuntime) -> Result<(), Fail> {
    let network = barred_triangle(rt.alloc())?;
    let to = least_to(rt.alloc(), &network, NodeId(3))?;
    assert!(rt; to.as_slice() == [some(2), some(1), some(0), NONE].as_slice());
    let from = least_from(rt.alloc(), &network, NodeId(1), NodeId(3))?;
    assert!(rt; from.as_slice() == [some(0), some(1), some(2), NONE].as_slice());
    Ok(())
}

// Another time of the closed arc can matter, and one of an arc that leaves the destination cannot.
#[test]
fn affected_budgets(rt: HostRuntime) -> Result<(), Fail> {
    let network = barred_triangle(rt.alloc())?;
    let edits = [
        (2, 1, [some(2), some(1), NONE, NONE]),
        (4, 3, [some(3), NONE, NONE, NONE]),
        (3, 1, [NONE, NONE, NONE, NONE]),
    ];
    for (arc, first, budgets) in edits {
        let found = affected(rt.alloc(), &network, NodeId(3), ArcId(arc), Tick(first))?;
        assert!(rt; found.as_slice() == budgets.as_slice());
    }
    Ok(())
}

#[test]
fn ranges(rt: HostRuntime) -> Result<(), Fail> {
    let network = barred_triangle(rt.alloc())?;
    let asks = [
        (4, 1, 65535, Ok(())),
        (0, 5, 65536, Err(RangeFault::NoOrigin)),
        (1, 5, 65536, Err(RangeFault::NoDest)),
        (1, 4, 65536, Err(RangeFault::Budget)),
    ];
    for (origin, dest, budget, answer) in asks {
        let range = check_range(&network, NodeId(origin), NodeId(dest), budget);
        assert_eq!(rt; range, answer);
    }
    Ok(())
}

#[test]
fn region_of_a_triangle(rt: HostRuntime) -> Result<(), Fail> {
    let network = barred_triangle(rt.alloc())?;
    let made = region(rt.alloc(), &network, NodeId(1), NodeId(3), 3)?;
    assert!(rt; made.need.as_slice() == [4, 3, 0, 0].as_slice());
    assert_eq!(rt; (made.table_cells, made.broad_cells), (4, 0));
    assert!(rt; made.least.as_slice() == [some(2), some(1), some(0), NONE].as_slice());
    let AskRegion { least, need, .. } = made;
    assert_eq!(rt; (least.into_vec().len(), need.into_vec().len()), (4, 4));
    Ok(())
}

/// From 2 to 1 straight, or by way of each of the nodes from 3 on.
fn fan(alloc: Global, nodes: u32) -> Result<Network, NoMemory>
    requires { (2 ≤ nodes) × (nodes ≤ 1000) }
    ensures { IfOk result (λ network. network.nodes ≡ nodes) }
{
    let mut arcs = Vec::new(alloc);
    arcs.push(Arc::certain(alloc, NodeId(2), NodeId(1), Scale::ONE, Tick(1))?)?;
    for node in 3..nodes + 1 {
        arcs.push(Arc::certain(alloc, NodeId(2), NodeId(node), Scale::ONE, Tick(1))?)?;
        arcs.push(Arc::certain(alloc, NodeId(node), NodeId(1), Scale::ONE, Tick(1))?)?;
    }
    Network::build(alloc, nodes, Scale::ONE, arcs)
}

#[test]
fn too_many_table_cells(rt: HostRuntime) -> Result<(), Fail> {
    let network = fan(rt.alloc(), 1000)?;
    let fault = region(rt.alloc(), &network, NodeId(2), NodeId(1), 65535).err();
    assert_eq!(rt; fault, Some(RegionFault::TableCells(65_468_467)));
    Ok(())
}

/// Two nodes, and so many arcs between them that take each of 1 to 33 ticks with the same chance.
fn broad_pair(alloc: Global, count: u32) -> Result<Network, Fail>
    requires { count ≤ 1000 }
    ensures { IfOk result (λ network. network.nodes ≡ 2) }
{
    let mut pairs = Vec::new(alloc);
    for tick in 1..34 {
        pairs.push((Tick(tick), Mass(1)))?;
    }
    let scale = Scale::new(33).ok_or("a scale")?;
    let whole = Histogram::build(alloc, scale, &pairs)?;
    let pairs = whole.pairs();
    let mut arcs = Vec::new(alloc);
    for _ in 0..count {
        let time = Histogram::from_rising(alloc, pairs)?;
        arcs.push(Arc {
            tail: NodeId(1),
            head: NodeId(2),
            time,
        })?;
    }
    Ok(Network::build(alloc, 2, scale, arcs)?)
}

#[test]
fn broad_cells(rt: HostRuntime) -> Result<(), Fail> {
    let network = broad_pair(rt.alloc(), 611)?;
    let fault = region(rt.alloc(), &network, NodeId(1), NodeId(2), 65535).err();
    assert_eq!(rt; fault, Some(RegionFault::BroadCells(40_062_048)));
    let narrow = region(rt.alloc(), &network, NodeId(1), NodeId(2), 32)?;
    assert_eq!(rt; narrow.broad_cells, 0);
    let broad = region(rt.alloc(), &network, NodeId(1), NodeId(2), 33)?;
    assert_eq!(rt; broad.broad_cells, 40_326);
    Ok(())
}

#[test]
fn words_and_counts(rt: HostRuntime) -> Result<(), Fail> {
    let faults = [
        (AskFault::NoDest, b"NoDest".as_slice(), None),
        (
            AskFault::TableCells(60_000_001),
            b"TableCells".as_slice(),
            Some(60_000_001),
        ),
    ];
    for (fault, word, count) in faults {
        assert!(rt; fault.word() == word);
        assert_eq!(rt; fault.count(), count);
    }
    Ok(())
}
