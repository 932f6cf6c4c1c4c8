// Routes of two small networks, with ample memory.
use crate::{RouteAnswer, RouteFault, route_bracket};
use sota_hist::Histogram;
use sota_network::{Arc, Network};
use sota_units::{ArcId, Grain, Mass, NodeId, Scale, Tick};
use std::alloc::Global;
use std::test::Fail;

/// Node 1 leads to 3 by way of 2 or directly. The road from 1 to 2 takes one tick.
fn triangle(alloc: Global) -> Result<Network, Fail> {
    let scale = Scale::new(4).ok_or("a scale")?;
    let late = [(Tick(1), Mass(2)), (Tick(3), Mass(2))];
    let direct = [(Tick(3), Mass(3)), (Tick(5), Mass(1))];
    let mut arcs = Vec::new(alloc);
    arcs.push(Arc::certain(alloc, NodeId(1), NodeId(2), scale, Tick(1))?)?;
    arcs.push(Arc {
        tail: NodeId(2),
        head: NodeId(3),
        time: Histogram::build(alloc, scale, &late)?,
    })?;
    arcs.push(Arc {
        tail: NodeId(1),
        head: NodeId(3),
        time: Histogram::build(alloc, scale, &direct)?,
    })?;
    Ok(Network::build(alloc, 3, scale, arcs)?)
}

/// From 1 to 3 by way of 2, over roads that take one tick in one case of three, and else nine.
fn chain(alloc: Global) -> Result<Network, Fail> {
    let scale = Scale::new(3).ok_or("a scale")?;
    let slow = [(Tick(1), Mass(1)), (Tick(9), Mass(2))];
    let mut arcs = Vec::new(alloc);
    arcs.push(Arc {
        tail: NodeId(1),
        head: NodeId(2),
        time: Histogram::build(alloc, scale, &slow)?,
    })?;
    arcs.push(Arc {
        tail: NodeId(2),
        head: NodeId(3),
        time: Histogram::build(alloc, scale, &slow)?,
    })?;
    Ok(Network::build(alloc, 3, scale, arcs)?)
}

/// The bounds of a route to node 3 as numbers.
fn bounds(
    alloc: Global,
    network: &Network,
    budget: u32,
    route: &[ArcId],
) -> Result<(u64, u64), RouteFault> {
    let RouteAnswer { lower, upper } = route_bracket(alloc, network, NodeId(3), budget, route)?;
    Ok((lower.get(), upper.get()))
}

#[test]
fn routes_are_bracketed(rt: HostRuntime) -> Result<(), Fail> {
    let alloc = rt.alloc();
    let network = triangle(alloc)?;
    let half = Grain::ONE.get() / 2;
    assert_eq!(rt;
        bounds(alloc, &network, 3, &[ArcId(1), ArcId(2)]),
        Ok((half, half))
    );
    let most = half + half / 2;
    assert_eq!(rt; bounds(alloc, &network, 3, &[ArcId(3)]), Ok((most, most)));
    let network = chain(alloc)?;
    let ninth = 111_111_111_111_111_111;
    let route = [ArcId(1), ArcId(2)];
    assert_eq!(rt; bounds(alloc, &network, 2, &route), Ok((ninth, ninth + 1)));
    Ok(())
}

#[test]
fn routes_are_refused(rt: HostRuntime) -> Result<(), Fail> {
    let alloc = rt.alloc();
    let network = triangle(alloc)?;
    let broken = bounds(alloc, &network, 3, &[ArcId(2), ArcId(1)]);
    assert_eq!(rt; broken, Err(RouteFault::Broken(2)));
    assert_eq!(rt;
        bounds(alloc, &network, 3, &[ArcId(1)]),
        Err(RouteFault::NotThere)
    );
    assert_eq!(rt;
        bounds(alloc, &network, 3, &[ArcId(9)]),
        Err(RouteFault::NoLeg(1))
    );
    assert_eq!(rt;
        bounds(alloc, &network, 65_536, &[ArcId(3)]),
        Err(RouteFault::Budget)
    );
    let long = vec![in alloc; ArcId(3); 1001]?;
    assert_eq!(rt;
        bounds(alloc, &network, 3, &long),
        Err(RouteFault::RouteArcs(1001))
    );
    Ok(())
}
