// Needs on small networks, and refused ones.
ghost use Rattle.std.specs.Prelude.{◌≡◌, ◌<◌, length, IfOk};
ghost use Rattle.sota_hist.specs.Time.{IsTime, total};

use crate::{Need, least_budgets};
use sota_bounds::AskFault;
use sota_hist::Histogram;
use sota_network::{Arc, Network};
use sota_units::{Grain, Mass, NodeId, Scale, Steps, Tick};
use std::alloc::Global;
use std::marker::Brand;
use std::sync::ledger::{Blank, Ledger};
use std::test::Fail;

/// An arc from a tail to a head with these chances, over the scale.
fn arc(alloc: Global, ends: (u32, u32), scale: Scale, chances: &[(Tick, Mass)]) -> Result<Arc, Fail>
    requires { length chances.now < 100 }
    ensures ends { IfOk result (λ arc. (arc.tail ≡ ends.0) × (arc.head ≡ ends.1)) }
    ensures time { IfOk result (λ arc. IsTime arc.time) }
    ensures total { IfOk result (λ arc. total arc.time ≡ scale) }
{
    Ok(Arc {
        tail: NodeId(ends.0),
        head: NodeId(ends.1),
        time: Histogram::build(alloc, scale, chances)?,
    })
}

/// From 1 to 3 by way of 2 in 2 or 4 ticks, or straight in 3 or 5.
fn triangle(alloc: Global) -> Result<Network, Fail> {
    let scale = Scale::new(4).ok_or("a scale")?;
    let late = [(Tick(1), Mass(2)), (Tick(3), Mass(2))];
    let direct = [(Tick(3), Mass(3)), (Tick(5), Mass(1))];
    let mut arcs = Vec::new(alloc);
    arcs.push(arc(alloc, (1, 2), scale, &[(Tick(1), Mass(4))])?)?;
    arcs.push(arc(alloc, (2, 3), scale, &late)?)?;
    arcs.push(arc(alloc, (1, 3), scale, &direct)?)?;
    Ok(Network::build(alloc, 3, scale, arcs)?)
}

/// From 1 to 3 by way of 2, each road quick with the chance 1/3.
fn chain(alloc: Global) -> Result<Network, Fail> {
    let scale = Scale::new(3).ok_or("a scale")?;
    let chances = [(Tick(1), Mass(1)), (Tick(9), Mass(2))];
    let mut arcs = Vec::new(alloc);
    arcs.push(arc(alloc, (1, 2), scale, &chances)?)?;
    arcs.push(arc(alloc, (2, 3), scale, &chances)?)?;
    Ok(Network::build(alloc, 3, scale, arcs)?)
}

/// What is asked for: the origin, the destination, the units of the confidence and the greatest
/// budget.
type Wanted = (u32, u32, u64, u32);

fn need_counted<M: Ledger, P: Ledger>(
    alloc: Global,
    network: &Network,
    wanted: Wanted,
    products: Blank,
    pushes: Blank,
) -> Result<Need, AskFault>
    requires products { (products.name ≡ M.name) × (products.parts ≡ M.parts)
        × (0 < products.parts) }
    requires pushes { (pushes.name ≡ P.name) × (pushes.parts ≡ P.parts)
        × (0 < pushes.parts) }
{
    let (origin, dest, units, most) = wanted;
    let mut products = Steps::<M>::new(products);
    let mut pushes = Steps::<P>::new(pushes);
    let confidence = Grain::new(units).unwrap_or(Grain::ONE);
    least_budgets(
        alloc,
        network,
        NodeId(origin),
        NodeId(dest),
        confidence,
        most,
        &mut products,
        &mut pushes,
    )
}

/// The need for what is asked.
fn need(alloc: Global, network: &Network, wanted: Wanted) -> Result<Need, AskFault> {
    need_counted::<Brand, Brand>(alloc, network, wanted, Blank::new(1), Blank::new(1))
}

/// An answer.
fn found(early: Option<u32>, sure: Option<u32>) -> Result<Need, AskFault> {
    Ok(Need { early, sure })
}

#[test]
fn needs_of_a_triangle(rt: HostRuntime) -> Result<(), Fail> {
    let network = triangle(rt.alloc())?;
    let rows = [
        ((1, 3, 750_000_000_000_000_000, 9), found(Some(3), Some(3))),
        ((1, 3, 750_000_000_000_000_001, 9), found(Some(4), Some(4))),
        ((1, 3, 1_000_000_000_000_000_000, 3), found(None, None)),
        ((1, 3, 0, 9), found(Some(0), Some(0))),
        ((3, 1, 1, 9), found(None, None)),
        (
            (3, 3, 1_000_000_000_000_000_000, 0),
            found(Some(0), Some(0)),
        ),
        ((4, 4, 0, 65_536), Err(AskFault::NoOrigin)),
        ((1, 0, 0, 65_536), Err(AskFault::NoDest)),
        ((1, 3, 0, 65_536), Err(AskFault::Budget)),
    ];
    for (wanted, answer) in rows {
        assert_eq!(rt; need(rt.alloc(), &network, wanted), answer);
    }
    Ok(())
}

#[test]
fn needs_of_a_chain(rt: HostRuntime) -> Result<(), Fail> {
    let network = chain(rt.alloc())?;
    let ninth = 111_111_111_111_111_112;
    let rows = [
        ((1, 3, ninth, 10), found(Some(2), Some(10))),
        ((1, 3, ninth, 9), found(Some(2), None)),
        ((1, 3, ninth, 1), found(None, None)),
        ((1, 3, ninth - 1, 9), found(Some(2), Some(2))),
    ];
    for (wanted, answer) in rows {
        assert_eq!(rt; need(rt.alloc(), &network, wanted), answer);
    }
    Ok(())
}
