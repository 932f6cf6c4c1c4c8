// Each call with ample memory, on a small network.
ghost use Rattle.std.specs.Prelude.{◌≡◌, ◌≤◌, ◌∷◌, [], IfOk};

use crate::{Extent, Order};
use sota_network::{Arc, Network};
use sota_units::{NoMemory, NodeId, Scale, Tick};
use std::alloc::Global;
use std::test::Fail;

/// From 1 to 3 by way of 2 in one tick and one more, or straight in three.
fn three_roads(alloc: Global) -> Result<Network, NoMemory>
    ensures { IfOk result (λ network. network ≡ record {
      nodes = 3;
      scale = 1;
      arcs =
          record { tail = 1; head = 2; time = (1, 1) ∷ [] }
          ∷ record { tail = 2; head = 3; time = (1, 1) ∷ [] }
          ∷ record { tail = 1; head = 3; time = (3, 1) ∷ [] } ∷ [];
    }) }
{
    let mut arcs = Vec::new(alloc);
    arcs.push(Arc::certain(alloc, NodeId(1), NodeId(2), Scale::ONE, Tick(1))?)?;
    arcs.push(Arc::certain(alloc, NodeId(2), NodeId(3), Scale::ONE, Tick(1))?)?;
    arcs.push(Arc::certain(alloc, NodeId(1), NodeId(3), Scale::ONE, Tick(3))?)?;
    Network::build(alloc, 3, Scale::ONE, arcs)
}

/// The node of an extent, its first budget, and the one after its last.
fn place_of(extent: Option<Extent>) -> Option<(u32, u32, u32)> {
    extent.map(|extent| (extent.node.get(), extent.from, extent.to))
}

// Worked by hand: node 2 reads the destination alone, so it is known up to its need at once, and
// then node 1 is.
#[test]
fn extents_of_three_roads(rt: HostRuntime) -> Result<(), Fail> {
    let network = three_roads(rt.alloc())?;
    let bases = [2, 1, 0];
    let fronts = [0, 0, 0];
    let needs = [4, 3, 0];
    let mut order = Order::new(rt.alloc(), &network, NodeId(3), &bases, &fronts, &needs)?;
    assert_eq!(rt; place_of(order.next_extent(&network)), Some((2, 1, 3)));
    assert_eq!(rt; place_of(order.next_extent(&network)), Some((1, 2, 4)));
    assert_eq!(rt; place_of(order.next_extent(&network)), None);
    Ok(())
}
