// Plans by both summers beside the plain grid, on made networks: one ask after another, of which
// each keeps what earlier ones and a cut left.
ghost use Rattle.std.specs.Prelude.{ℕ, ◌≡◌, ◌+◌, ◌<◌, ◌≤◌, length, IfOk, OnOk, IsSome};
ghost use Rattle.sota_hist.specs.Time.{total};
ghost use Rattle.sota_kept.specs.TableLists.{IsKept};
ghost use Rattle.sota_tables.specs.Views.{HasNode, lists_of};

use crate::{extend, is_met, prepare};
use sota_bounds::region;
use sota_hist::Histogram;
use sota_network::{Arc, Grid, Network, plain_grid};
use sota_online::{BlockSummer, PlainSummer, Summer};
use sota_tables::Tables;
use sota_tables::laws::tables_stay_kept;
use sota_units::{Mass, NodeId, Scale, Steps, Tick};
use std::alloc::Global;
use std::marker::Brand;
use std::process::Abort;
use std::sync::ledger::{Blank, Ledger};
use std::test::Fail;

/// The next number of a seed, below a limit.
fn drawn(seed: &mut u64, limit: u32) -> u32
    requires { 1 ≤ limit }
    ensures { result < limit }
{
    *seed = seed.wrapping_mul(6_364_136_223_846_793_005).wrapping_add(1);
    ((*seed / 8_589_934_592) % u64::from(limit)) as u32
}

/// Up to fifty ticks with gaps of up to two between them. The last has the rest of the mass where
/// it is to be whole, and else what the masses lack of the scale is lost.
fn made_time(
    alloc: Global,
    scale: Scale,
    seed: &mut u64,
    count: usize,
    whole: bool,
) -> Result<Histogram, Fail>
    requires { count ≤ 50 }
    ensures { IfOk result (λ time. total time ≤ scale) }
{
    let mut pairs = [(Tick(0), Mass(0)); 50];
    let mut tick = 1 + drawn(seed, 9);
    let mut left = scale.get();
    for place in 0..count {
        let is_rest = whole && place == count - 1;
        let mass = if is_rest { left } else { 1 + drawn(seed, 3) };
        pairs[place] = (Tick(tick), Mass(mass));
        left = left.saturating_sub(mass);
        tick = tick.saturating_add(1 + drawn(seed, 3));
    }
    Ok(Histogram::at_most(alloc, scale, &pairs)?)
}

/// A network of arcs that go anywhere: one in three has one tick, one five, and one fifty. By every
/// other seed no mass is lost, and arriving in time becomes certain at greater budgets.
fn made_network(alloc: Global, mut seed: u64, nodes: u32, arcs: u32) -> Result<Network, Fail>
    requires nodes { (1 ≤ nodes) × (nodes ≤ 1000) }
    requires arcs { arcs ≤ 1000 }
    ensures { IfOk result (λ network. network.nodes ≡ nodes) }
{
    let scale = Scale::new(150).ok_or("a scale")?;
    let whole = seed % 2 == 0;
    let mut list = Vec::new(alloc);
    for number in 0..arcs {
        let tail = NodeId(1 + drawn(&mut seed, nodes));
        let head = NodeId(1 + drawn(&mut seed, nodes));
        let count = [1, 5, 50][number as usize % 3];
        let time = made_time(alloc, scale, &mut seed, count, whole)?;
        list.push(Arc { tail, head, time })?;
    }
    Ok(Network::build(alloc, nodes, scale, list)?)
}

/// The greatest budget of all asks.
const LAST: u32 = 150;

/// The asks of each network, by origin, destination and budget.
const ASKS: [(u32, u32, u32); 5] = [
    (1, 3, 60),
    (2, 3, LAST),
    (1, 3, 90),
    (3, 1, LAST),
    (1, 1, 5),
];

/// Plans an ask from what the tables keep.
fn plan<Z: Summer, M: Ledger, P: Ledger>(
    alloc: Global,
    network: &Network,
    tables: &mut Tables,
    ask: (u32, u32, u32),
    products: &mut Steps<M>,
    pushes: &mut Steps<P>,
) -> Result<(), Fail>
    requires { IsKept (lists_of tables.old) network.now }
    ensures { OnOk result (IsKept (lists_of tables.new) network.now) }
{
    let (origin, dest, budget) = ask;
    let nodes = network.nodes();
    if origin == 0 || nodes < origin || dest == 0 || nodes < dest || LAST < budget {
        return Err(Fail::from("another ask"));
    }
    let region = region(alloc, network, NodeId(origin), NodeId(dest), budget)?;
    if 1_000_000 < region.table_cells || 1_000_000 < region.broad_cells {
        return Err(Fail::from("a smaller ask"));
    }
    let mut run = prepare::<Z>(alloc, network, tables, &region)?;
    extend(tables, network, &mut run, products, pushes);
    // Once more it would change nothing.
    if !is_met(network, tables, &region) {
        return Err(Fail::from("an ask that is met"));
    }
    Ok(())
}

/// The entries that are kept of a node are the grid's.
fn same_entries(rt: &impl Abort, tables: &Tables, grid: &Grid, node: NodeId)
    requires node { HasNode tables.now node }
    requires dest { IsSome tables.now.dest }
    requires grid { (node ≤ grid.now.nodes) × (grid.now.budget ≡ 150) }
{
    let end = tables.front(node).min(LAST + 1);
    for budget in tables.base(node)..end {
        assert_eq!(rt; tables.lower(node, budget), grid.lower(node, budget));
        assert_eq!(rt; tables.upper(node, budget), grid.upper(node, budget));
        assert_eq!(rt; tables.choice(node, budget), grid.choice(node, budget));
    }
}

/// The entries that are kept of all nodes are the grid's.
fn same_as_grid(rt: &impl Abort, network: &Network, tables: &Tables, grid: &Grid)
    requires kept { IsKept (lists_of tables.now) network.now }
    requires dest { IsSome tables.now.dest }
    requires grid { (grid.now.nodes ≡ network.now.nodes) × (grid.now.budget ≡ 150) }
{
    for index in 0..network.nodes() {
        same_entries(rt, tables, grid, NodeId(index + 1));
    }
}

/// Keeps half of the entries of the first node, as an edit may.
fn halve(tables: &mut Tables, network: &Network)
    requires { IsKept (lists_of tables.old) network.now }
    ensures { IsKept (lists_of tables.new) network.now }
{
    tables_stay_kept();
    if network.nodes() > 0 {
        let front = tables.front(NodeId(1));
        tables.cut_to(NodeId(1), front / 2);
    }
}

/// All asks of a network, one after another.
fn plan_all<Z: Summer, M: Ledger, P: Ledger>(
    rt: &impl Abort,
    alloc: Global,
    network: &Network,
    products: &mut Steps<M>,
    pushes: &mut Steps<P>,
) -> Result<(), Fail> {
    tables_stay_kept();
    let mut tables = Tables::new(alloc, network.nodes())?;
    for ask in ASKS {
        plan::<Z, M, P>(alloc, network, &mut tables, ask, products, pushes)?;
        let dest = tables.dest().ok_or("a destination")?;
        let grid = plain_grid(alloc, network, dest, LAST)?;
        same_as_grid(rt, network, &tables, &grid);
        halve(&mut tables, network);
    }
    Ok(())
}

fn all<M: Ledger, P: Ledger>(
    rt: &impl Abort,
    alloc: Global,
    products: Blank,
    pushes: Blank,
) -> Result<(), Fail>
    requires products { (products.name ≡ M.name) × (products.parts ≡ M.parts)
        × (0 < products.parts) }
    requires pushes { (pushes.name ≡ P.name) × (pushes.parts ≡ P.parts)
        × (0 < pushes.parts) }
{
    let mut products = Steps::<M>::new(products);
    let mut pushes = Steps::<P>::new(pushes);
    for seed in 1..13u32 {
        let network = made_network(alloc, u64::from(seed), 3 + seed % 4, 7 + seed)?;
        plan_all::<PlainSummer, M, P>(rt, alloc, &network, &mut products, &mut pushes)?;
        plan_all::<BlockSummer, M, P>(rt, alloc, &network, &mut products, &mut pushes)?;
    }
    Ok(())
}

#[test]
fn plans_are_the_grid(rt: HostRuntime) -> Result<(), Fail> {
    all::<Brand, Brand>(&rt, rt.alloc(), Blank::new(1), Blank::new(1))
}
