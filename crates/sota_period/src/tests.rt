// The worked rows of a small network whose second road is quicker from a tick of the clock on, and
// one period beside the plain planner on made networks.
ghost use Rattle.std.specs.Prelude.{ℕ, ◌≡◌, ◌≤◌, ◌<◌, ◌∷◌, [], IfOk};
ghost use Rattle.sota_hist.specs.Time.{total};
ghost use Rattle.sota_period.specs.Periods.{HasRoadsOf, ends};

use crate::{Timed, TimedAnswer, plan_timed};
use sota_hist::Histogram;
use sota_network::{Arc, Grid, Network, plain_grid};
use sota_online::{BlockSummer, PlainSummer, Summer};
use sota_units::{ArcId, Mass, NodeId, Scale, Steps, Tick};
use std::alloc::Global;
use std::marker::Brand;
use std::process::Abort;
use std::sync::ledger::{Blank, Ledger};
use std::test::Fail;

/// Node 1 leads to 3 by way of 2 or directly. The road from 1 to 2 takes one tick, and the direct
/// one three or five.
fn triangle(
    alloc: Global,
    scale: Scale,
    second: Histogram,
    direct: Histogram,
) -> Result<Network, Fail>
    requires second { total second ≤ scale }
    requires direct { total direct ≤ scale }
    ensures nodes { IfOk result (λ network. network.nodes ≡ 3) }
    ensures ends { IfOk result (λ network.
        ends network.arcs ≡ (1, 2) ∷ (2, 3) ∷ (1, 3) ∷ []) }
{
    let mut arcs = Vec::new(alloc);
    arcs.push(Arc::certain(alloc, NodeId(1), NodeId(2), scale, Tick(1))?)?;
    arcs.push(Arc {
        tail: NodeId(2),
        head: NodeId(3),
        time: second,
    })?;
    arcs.push(Arc {
        tail: NodeId(1),
        head: NodeId(3),
        time: direct,
    })?;
    Ok(Network::build(alloc, 3, scale, arcs)?)
}

/// Its second road takes one tick or three, or from an hour on always one.
fn hours(alloc: Global, is_quick: bool) -> Result<Network, Fail>
    ensures nodes { IfOk result (λ network. network.nodes ≡ 3) }
    ensures ends { IfOk result (λ network.
        ends network.arcs ≡ (1, 2) ∷ (2, 3) ∷ (1, 3) ∷ []) }
{
    let scale = Scale::new(4).ok_or("a scale")?;
    let second = if is_quick {
        Histogram::build(alloc, scale, &[(Tick(1), Mass(4))])?
    } else {
        Histogram::build(alloc, scale, &[(Tick(1), Mass(2)), (Tick(3), Mass(2))])?
    };
    let direct = [(Tick(3), Mass(3)), (Tick(5), Mass(1))];
    triangle(
        alloc,
        scale,
        second,
        Histogram::build(alloc, scale, &direct)?,
    )
}

/// The same roads, whose times are certain.
fn certain(alloc: Global) -> Result<Network, Fail>
    ensures nodes { IfOk result (λ network. network.nodes ≡ 3) }
    ensures ends { IfOk result (λ network.
        ends network.arcs ≡ (1, 2) ∷ (2, 3) ∷ (1, 3) ∷ []) }
{
    let second = Histogram::certain(alloc, Scale::ONE, Tick(1))?;
    let direct = Histogram::certain(alloc, Scale::ONE, Tick(3))?;
    triangle(alloc, Scale::ONE, second, direct)
}

/// One network until tick 8 of the clock, and then another. The place of a scale that differs, if
/// one does.
#[tactic(auto, using(crate::proofs::Orders::two_in_order))]
fn two_periods(alloc: Global, first: Network, second: Network) -> Result<Result<Timed, u32>, Fail>
    requires { HasRoadsOf first second }
{
    let mut periods = Vec::new(alloc);
    periods.push((0, first))?;
    periods.push((8, second))?;
    Ok(Timed::new(periods).map_err(|refused| refused.0))
}

/// What the ask from 1 to 3 within a budget is answered.
fn asked<Z: Summer, M: Ledger>(
    alloc: Global,
    timed: &Timed,
    budget: u32,
    deadline: u32,
    products: &mut Steps<M>,
) -> Result<TimedAnswer, Fail>
    requires { budget ≤ deadline }
{
    Ok(plan_timed::<Z, M>(alloc, timed, 1, 3, budget, deadline, products)?)
}

/// The bounds and the arc of the ask within 3 ticks.
fn rows<M: Ledger>(rt: &impl Abort, alloc: Global, blank: Blank) -> Result<(), Fail>
    requires { (blank.name ≡ M.name) × (blank.parts ≡ M.parts) × (0 < blank.parts) }
{
    let mut products = Steps::<M>::new(blank);
    let timed = two_periods(alloc, hours(alloc, false)?, hours(alloc, true)?)?;
    let timed = timed.ok().ok_or("one scale")?;

    // Who leaves at 7 takes the second road at 8, when it is quick.
    let late = asked::<PlainSummer, M>(alloc, &timed, 3, 10, &mut products)?;
    assert_eq!(rt; late.lower.get(), 1_000_000_000_000_000_000);
    assert_eq!(rt; late.upper.get(), 1_000_000_000_000_000_000);
    assert_eq!(rt; late.next, Some(ArcId(1)));
    let early = asked::<BlockSummer, M>(alloc, &timed, 3, 7, &mut products)?;
    assert_eq!(rt; early.lower.get(), 750_000_000_000_000_000);
    assert_eq!(rt; early.upper.get(), 750_000_000_000_000_000);
    assert_eq!(rt; early.next, Some(ArcId(3)));
    Ok(())
}

#[test]
fn hours_decide(rt: HostRuntime) -> Result<(), Fail> {
    rows::<Brand>(&rt, rt.alloc(), Blank::new(1))
}

#[test]
fn scales_agree(rt: HostRuntime) -> Result<(), Fail> {
    let mixed = two_periods(rt.alloc(), hours(rt.alloc(), false)?, certain(rt.alloc())?)?;
    assert_eq!(rt; mixed.err(), Some(1));
    Ok(())
}

/// The next number of a seed, below a limit.
fn drawn(seed: &mut u64, limit: u32) -> u32
    requires { 1 ≤ limit }
    ensures { result < limit }
{
    *seed = seed.wrapping_mul(6_364_136_223_846_793_005).wrapping_add(1);
    ((*seed / 8_589_934_592) % u64::from(limit)) as u32
}

/// Up to fifty ticks with gaps of up to two between them. What the masses lack of the scale is
/// lost.
fn made_time(alloc: Global, scale: Scale, seed: &mut u64, count: usize) -> Result<Histogram, Fail>
    requires { count ≤ 50 }
    ensures { IfOk result (λ time. total time ≤ scale) }
{
    let mut pairs = [(Tick(0), Mass(0)); 50];
    let mut tick = 1 + drawn(seed, 4);
    for place in 0..count {
        pairs[place] = (Tick(tick), Mass(1 + drawn(seed, 3)));
        tick = tick.saturating_add(1 + drawn(seed, 3));
    }
    Ok(Histogram::at_most(alloc, scale, &pairs)?)
}

/// A network of arcs that go anywhere: one in three has one tick, one five, and one fifty.
fn made_network(alloc: Global, mut seed: u64, nodes: u32, arcs: u32) -> Result<Network, Fail>
    requires nodes { (1 ≤ nodes) × (nodes ≤ 1000) }
    requires arcs { arcs ≤ 1000 }
    ensures { IfOk result (λ network. network.nodes ≡ nodes) }
{
    let scale = Scale::new(150).ok_or("a scale")?;
    let mut list = Vec::new(alloc);
    for number in 0..arcs {
        let tail = NodeId(1 + drawn(&mut seed, nodes));
        let head = NodeId(1 + drawn(&mut seed, nodes));
        let count = [1, 5, 50][number as usize % 3];
        let time = made_time(alloc, scale, &mut seed, count)?;
        list.push(Arc { tail, head, time })?;
    }
    Ok(Network::build(alloc, nodes, scale, list)?)
}

/// A network that holds always.
#[tactic(auto, using(crate::proofs::Orders::one_in_order))]
fn one_period(alloc: Global, network: Network) -> Result<Timed, Fail> {
    let mut periods = Vec::new(alloc);
    periods.push((0, network))?;
    Ok(Timed::new(periods)?)
}

/// Four asks from node 1 to node 3 are answered as by the plain planner. Within few ticks most
/// nodes are out of reach.
fn same_as_plain<Z: Summer, M: Ledger>(
    rt: &impl Abort,
    alloc: Global,
    timed: &Timed,
    grid: &Grid,
    products: &mut Steps<M>,
) -> Result<(), Fail>
    requires { (3 ≤ grid.now.nodes) × (grid.now.budget ≡ 150) }
{
    for place in 0..4 {
        let budget = [0, 5, 40, 150][place];
        let answer = asked::<Z, M>(alloc, timed, budget, 200, products)?;
        assert_eq!(rt; answer.lower, grid.lower(NodeId(1), budget));
        assert_eq!(rt; answer.upper, grid.upper(NodeId(1), budget));
        assert_eq!(rt; answer.next, grid.choice(NodeId(1), budget));
    }
    Ok(())
}

fn all<M: Ledger>(rt: &impl Abort, alloc: Global, blank: Blank) -> Result<(), Fail>
    requires { (blank.name ≡ M.name) × (blank.parts ≡ M.parts) × (0 < blank.parts) }
{
    let mut products = Steps::<M>::new(blank);
    for seed in 1..13u32 {
        let network = made_network(alloc, u64::from(seed), 3 + seed % 4, 7 + seed)?;
        let grid = plain_grid(alloc, &network, NodeId(3), 150)?;
        let timed = one_period(alloc, network)?;
        same_as_plain::<PlainSummer, M>(rt, alloc, &timed, &grid, &mut products)?;
        same_as_plain::<BlockSummer, M>(rt, alloc, &timed, &grid, &mut products)?;
    }
    Ok(())
}

#[test]
fn one_period_is_plain(rt: HostRuntime) -> Result<(), Fail> {
    all::<Brand>(&rt, rt.alloc(), Blank::new(1))
}
