// How many budgets each node needs.
ghost use Rattle.std.specs.Prelude.{ℕ, ◌≡◌, ◌+◌, ◌^◌, ◌<◌, ◌≤◌, length, map, false, IfOk, IfSome};
ghost use Rattle.sota_units.specs.Limits.{BUDGET_LIMIT};
ghost use Rattle.sota_hist.specs.Time.{is_closed, least_tick};
ghost use Rattle.sota_network.specs.Network.{IsNode, arc_at};
ghost use Rattle.sota_network.specs.declared.network.Arc.{Arc};
ghost use Rattle.sota_period.specs.Periods.{ArePeriods, first_net, period_at};
ghost use Rattle.sota_period.specs.Needs.{AreTimedNeeds, AreQuickest, AreVisited, IsBy, IsCertain};
ghost use Rattle.sota_period.specs.Needs.{IsQuickest, node_need, need_by};

use crate::laws::network_laws;
use crate::timed::Timed;
use sota_bounds::least_from;
use sota_hist::Histogram;
use sota_kept::LeastTime;
use sota_network::laws::reaches_by_walks;
use sota_network::{Arc, Network};
use sota_units::{ArcId, NoMemory, NodeId, Scale, Tick};
use std::alloc::Global;

/// The sooner of a tick and the least of an arc, where they are.
fn sooner(known: Option<Tick>, arc: &Arc) -> Option<Tick>
    ensures known { (late : ℕ) → IsBy known late → IsBy result late }
    ensures arc { is_closed arc.now.time ≡ false → IsBy result (least_tick arc.now.time) }
    ensures positive { IfSome known (λ tick. 1 ≤ tick) → IfSome result (λ tick. 1 ≤ tick) }
{
    if arc.time.is_closed() {
        return known;
    }
    let least = arc.time.least();
    match known {
        Some(tick) if tick.get() <= least.get() => known,
        _ => Some(least),
    }
}

/// The least tick of the arc of a number in all periods. None: it is closed in all.
fn quickest_tick(periods: &[(u32, Network)], number: ArcId) -> Option<Tick>
    requires { (k : ℕ) → k < length periods.now
        → (1 ≤ number) × (number ≤ length (period_at periods.now k).arcs) }
    ensures least { (k : ℕ) (arc : Arc) → k < length periods.now
        → arc_at (period_at periods.now k) number ≡ Some arc → is_closed arc.time ≡ false
        → IsBy result (least_tick arc.time) }
    ensures positive { IfSome result (λ tick. 1 ≤ tick) }
{
    let mut tick = None;
    for period in periods {
        tick = sooner(tick, period.1.numbered(number));
    }
    tick
}

/// The arc of a number, as quick for certain as it is at best.
fn quickest_arc(alloc: Global, timed: &Timed, number: ArcId) -> Result<Arc, NoMemory>
    requires { (1 ≤ number) × (number ≤ length (first_net timed.now).arcs) }
    ensures quickest { IfOk result (λ quick. IsQuickest timed.now number quick) }
    ensures valid { IfOk result (λ quick. IsCertain (first_net timed.now).nodes quick) }
{
    network_laws();
    let periods = timed.periods();
    let arc = periods[0].1.numbered(number);
    match quickest_tick(periods, number) {
        Some(tick) => Arc::certain(alloc, arc.tail, arc.head, Scale::ONE, tick),
        None => Ok(Arc {
            tail: arc.tail,
            head: arc.head,
            time: Histogram::closed(),
        }),
    }
}

/// The network in which each arc is as quick for certain as it is at best.
fn quickest(alloc: Global, timed: &Timed) -> Result<Network, NoMemory>
    ensures { IfOk result (λ quick. AreQuickest timed.now quick) }
{
    let nodes = timed.nodes();
    let count = timed.periods()[0].1.arc_count();
    let mut arcs = Vec::with_capacity(alloc, count as usize)?;
    for index in 0..count {
        arcs.push(quickest_arc(alloc, timed, ArcId(index + 1))?)?;
    }
    let quick = Network::build(alloc, nodes, Scale::ONE, arcs)?;
    Ok(quick)
}

/// The need of a node that is reached at this time at the soonest.
fn need_by(time: LeastTime, budget: u32) -> u32
    requires { budget ≤ BUDGET_LIMIT }
    ensures { result ≡ need_by budget time }
{
    match time.get() {
        Some(time) if time <= u64::from(budget) => budget + 1 - time as u32,
        _ => 0,
    }
}

/// Those of all nodes.
fn needs_by(alloc: Global, times: &[LeastTime], budget: u32) -> Result<Vec<u32>, NoMemory>
    requires { budget ≤ BUDGET_LIMIT }
    ensures { IfOk result (λ needs. needs.items ≡ map (need_by budget) times.now) }
{
    let mut needs = Vec::with_capacity(alloc, times.len())?;
    for time in times {
        needs.push(need_by(*time, budget))?;
    }
    Ok(needs)
}

/// At how many budgets, from 0 on, the value of each node is needed for that of an origin at this
/// budget: by the least time from the origin, where each arc is as quick as in its quickest period.
pub(crate) fn find_needs(
    alloc: Global,
    timed: &Timed,
    origin: NodeId,
    dest: NodeId,
    budget: u32,
) -> Result<Vec<u32>, NoMemory>
    requires origin { IsNode (first_net timed.now) origin }
    requires budget { budget ≤ BUDGET_LIMIT }
    ensures needs { IfOk result (λ needs. AreTimedNeeds timed.now dest (budget + 1) needs.items) }
    ensures origin { IfOk result (λ needs. node_need needs.items origin ≡ budget + 1) }
{
    network_laws();
    reaches_by_walks();
    let quick = quickest(alloc, timed)?;
    let times = least_from(alloc, &quick, origin, dest)?;
    needs_by(alloc, &times, budget)
}

/// The nodes with a need, without the destination.
pub(crate) fn find_visited(
    alloc: Global,
    needs: &[u32],
    dest: NodeId,
) -> Result<Vec<NodeId>, NoMemory>
    requires { length needs.now < 2 ^ 32 }
    ensures { IfOk result (λ nodes. AreVisited needs.now dest nodes.items) }
{
    let mut nodes = Vec::new(alloc);
    for index in 0..needs.len() {
        let node = NodeId(index as u32 + 1);
        if node != dest && needs[index] > 0 {
            nodes.push(node)?;
        }
    }
    Ok(nodes)
}
