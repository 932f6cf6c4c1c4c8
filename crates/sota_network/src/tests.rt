// Each call once with ample memory, on a network of certain times and on one that loses mass.
ghost use Rattle.std.specs.Prelude.{◌≡◌, ◌≤◌, ◌∷◌, [], IfOk};

use crate::{Arc, Grid, Network, plain_grid};
use sota_hist::Histogram;
use sota_units::{ArcId, Grain, Mass, NoMemory, NodeId, Scale, Tick};
use std::alloc::Global;
use std::test::Fail;

/// From 1 to 3 by way of 2 in two ticks, or straight by one of two arcs in three.
fn certain_triangle(alloc: Global) -> Result<Network, NoMemory>
    ensures nodes { IfOk result (λ network. network.nodes ≡ 3) }
    ensures scale { IfOk result (λ network. network.scale ≡ 1) }
{
    let mut arcs = Vec::new(alloc);
    arcs.push(Arc::certain(alloc, NodeId(1), NodeId(2), Scale::ONE, Tick(1))?)?;
    arcs.push(Arc::certain(alloc, NodeId(2), NodeId(3), Scale::ONE, Tick(1))?)?;
    arcs.push(Arc::certain(alloc, NodeId(1), NodeId(3), Scale::ONE, Tick(3))?)?;
    arcs.push(Arc::certain(alloc, NodeId(1), NodeId(3), Scale::ONE, Tick(3))?)?;
    Network::build(alloc, 3, Scale::ONE, arcs)
}

/// The triangle's views.
fn has_views(network: &Network) -> bool
    requires { network.now.nodes ≡ 3 }
{
    network.nodes() == 3
        && network.arc_count() == 4
        && network.scale() == Scale::ONE
        && network.arcs().len() == 4
        && network
            .arc(ArcId(3))
            .is_some_and(|arc| arc.head == NodeId(3))
        && network.arc(ArcId(5)).is_none()
        && network.numbered(ArcId(2)).tail == NodeId(2)
        && network.leaving(NodeId(1)) == [ArcId(1), ArcId(3), ArcId(4)].as_slice()
        && network.entering(NodeId(3)) == [ArcId(2), ArcId(3), ArcId(4)].as_slice()
}

/// The triangle's entries towards node 3.
fn has_entries(grid: &Grid) -> bool
    requires nodes { grid.now.nodes ≡ 3 }
    requires budget { grid.now.budget ≡ 3 }
{
    grid.lower(NodeId(1), 1) == Grain::ZERO
        && grid.choice(NodeId(1), 1).is_none()
        && grid.upper(NodeId(1), 2) == Grain::ONE
        && grid.choice(NodeId(1), 2) == Some(ArcId(1))
}

/// A bridge from 1 to 2 that takes 5 ticks with the chance 3/4, and else never ends.
fn bridge(alloc: Global) -> Result<Network, NoMemory>
    ensures nodes { IfOk result (λ network. network.nodes ≡ 2) }
{
    let mut arcs = Vec::new(alloc);
    arcs.push(Arc {
        tail: NodeId(1),
        head: NodeId(2),
        time: Histogram::from_rising(alloc, &[(Tick(5), Mass(3))])?,
    })?;
    let scale = Scale::new(4).unwrap_or(Scale::ONE);
    Network::build(alloc, 2, scale, arcs)
}

#[test]
fn plans_certain_times(rt: HostRuntime) -> Result<(), Fail> {
    let network = certain_triangle(rt.alloc())?;
    assert!(rt; has_views(&network));
    let grid = plain_grid(rt.alloc(), &network, NodeId(3), 3)?;
    assert!(rt; has_entries(&grid));
    Ok(())
}

// What is worth 3/4 at 9 ticks is worth nothing once it is closed.
#[test]
fn loses_mass(rt: HostRuntime) -> Result<(), Fail> {
    let mut network = bridge(rt.alloc())?;
    let grid = plain_grid(rt.alloc(), &network, NodeId(2), 9)?;
    assert_eq!(rt; grid.lower(NodeId(1), 9).get(), 750_000_000_000_000_000);
    assert_eq!(rt; grid.upper(NodeId(1), 9).get(), 750_000_000_000_000_000);
    let old = network
        .replace(ArcId(1), Histogram::closed())
        .ok()
        .ok_or("an arc")?;
    assert!(rt; old.pairs() == [(Tick(5), Mass(3))].as_slice());
    let grid = plain_grid(rt.alloc(), &network, NodeId(2), 9)?;
    assert_eq!(rt; grid.upper(NodeId(1), 9).get(), 0);
    assert!(rt; grid.choice(NodeId(1), 9).is_none());
    Ok(())
}

#[test]
fn hands_a_time_back(rt: HostRuntime) -> Result<(), Fail> {
    let mut network = certain_triangle(rt.alloc())?;
    let quick = Histogram::certain(rt.alloc(), Scale::ONE, Tick(2))?;
    let refused = network.replace(ArcId(5), quick).err().ok_or("no arc")?;
    assert_eq!(rt; refused.time.least(), Tick(2));
    Ok(())
}
