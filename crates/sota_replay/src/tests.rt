// Trips whose words were drawn by another program of the generator, which gives the words of PCG's
// own example.
ghost use Rattle.std.specs.Prelude.{◌≤◌};
ghost use Rattle.sota_hist.specs.Time.{IsTime, total};

use super::*;
use sota_hist::Histogram;
use sota_network::{Arc, Network};
use sota_polfile::{PolicyEntries, PolicyEntry, PolicyFault, PolicyHead, PolicyRow, PolicyTable};
use sota_units::{Mass, NoMemory, NodeId, Scale, Tick};
use std::alloc::Global;
use std::test::Fail;

/// One road from 1 to 2, over the scale 4.
fn road(alloc: Global, pairs: &[(Tick, Mass)]) -> Result<Network, NoMemory>
    requires rising { IsTime pairs.now }
    requires total { total pairs.now ≤ 4 }
{
    let mut arcs = Vec::new(alloc);
    arcs.push(Arc {
        tail: NodeId(1),
        head: NodeId(2),
        time: Histogram::from_rising(alloc, pairs)?,
    })?;
    let scale = Scale::new(4).unwrap_or(Scale::ONE);
    Network::build(alloc, 2, scale, arcs)
}

/// From 1 to 3 by way of 2, over the scale 6. Either road may be one that never ends.
fn chain(alloc: Global) -> Result<Network, NoMemory> {
    let mut arcs = Vec::new(alloc);
    arcs.push(Arc {
        tail: NodeId(1),
        head: NodeId(2),
        time: Histogram::from_rising(alloc, &[(Tick(1), Mass(3)), (Tick(2), Mass(2))])?,
    })?;
    arcs.push(Arc {
        tail: NodeId(2),
        head: NodeId(3),
        time: Histogram::from_rising(alloc, &[(Tick(1), Mass(2)), (Tick(3), Mass(2))])?,
    })?;
    let scale = Scale::new(6).unwrap_or(Scale::ONE);
    Network::build(alloc, 3, scale, arcs)
}

/// A policy from the first node to the last, with one entry a row: a node, a budget and an arc.
/// Each claims the value 0, so that it holds on every network that has the arc.
fn policy(
    alloc: Global,
    nodes: u32,
    budget: u32,
    scale: u32,
    entries: &[(u32, u32, u32)],
) -> Result<PolicyTable, PolicyFault> {
    let mut rows = Vec::new(alloc);
    for (node, first, arc) in entries {
        let mut list = Vec::new(alloc);
        list.push(PolicyEntry {
            arc: *arc,
            value: 0,
        })?;
        rows.push(PolicyRow {
            node: *node,
            first: *first,
            entries: PolicyEntries::new(list),
        })?;
    }
    let head = PolicyHead {
        nodes,
        dest: nodes,
        origin: 1,
        budget,
        scale,
    };
    PolicyTable::from_parts(head, rows)
}

/// How many trips arrive, are late, have no choice and are lost, and a draw after them.
fn tally(network: &Network, table: &PolicyTable, seed: u64, count: u32) -> ([u32; 4], u32) {
    let mut words = Words::new(seed);
    let tally = trips(network, table, &mut words, count);
    let counts = [tally.arrived, tally.late, tally.stuck, tally.lost];
    (counts, words.draw_below(1_000_000))
}

/// The tally on one road that takes its 5 ticks so often of 4 times, with the arc that the policy
/// names at the whole budget.
fn on_road(alloc: Global, mass: u32, budget: u32, arc: u32, count: u32) -> Result<[u32; 4], Fail>
    requires { mass ≤ 4 }
{
    let pairs = [(Tick(5), Mass(mass))];
    let network = road(alloc, if mass == 0 { &[] } else { &pairs })?;
    let table = policy(alloc, 2, budget, 4, &[(1, budget, arc)])?;
    Ok(tally(&network, &table, 7, count).0)
}

#[test]
fn one_road(rt: HostRuntime) -> Result<(), Fail> {
    assert_eq!(rt; on_road(rt.alloc(), 4, 5, 1, 5)?, [5, 0, 0, 0]);
    assert_eq!(rt; on_road(rt.alloc(), 4, 4, 1, 3)?, [0, 3, 0, 0]);
    assert_eq!(rt; on_road(rt.alloc(), 4, 4, 0, 3)?, [0, 0, 3, 0]);
    assert_eq!(rt; on_road(rt.alloc(), 3, 9, 1, 1000)?, [767, 0, 0, 233]);
    assert_eq!(rt; on_road(rt.alloc(), 0, 9, 1, 3)?, [0, 0, 0, 3]);
    Ok(())
}

#[test]
fn two_roads(rt: HostRuntime) -> Result<(), Fail> {
    let network = chain(rt.alloc())?;
    let table = policy(rt.alloc(), 3, 3, 6, &[(1, 3, 1), (2, 2, 2)])?;
    let mut words = Words::new(7);
    for wanted in [Ending::Lost, Ending::Late, Ending::NoChoice] {
        assert_eq!(rt; trip(&network, &table, &mut words), wanted);
    }
    assert_eq!(rt;
        tally(&network, &table, 1, 1000),
        ([178, 177, 313, 332], 692_559)
    );
    assert_eq!(rt;
        tally(&network, &table, 7, 1000),
        ([174, 180, 325, 321], 39_033)
    );
    let empty = policy(rt.alloc(), 3, 3, 6, &[])?;
    assert_eq!(rt; tally(&network, &empty, 1, 3), ([0, 0, 3, 0], 442_723));
    Ok(())
}
