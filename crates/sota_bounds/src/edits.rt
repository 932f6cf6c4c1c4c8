// From which budget on another time of an arc can change what is planned for a node.
ghost use Rattle.std.specs.Prelude.{ℕ, ◌≡◌, ◌≤◌, length, IfOk, IfSome};
ghost use Rattle.std.specs.List.{All};
ghost use Rattle.sota_units.specs.Limits.{NODE_LIMIT};
ghost use Rattle.sota_network.specs.Network.{IsNode};
ghost use Rattle.sota_kept.specs.Edits.{first_affected_by};
ghost use Rattle.sota_bounds.specs.Affected.{AreFirstAffected};
ghost use Rattle.sota_bounds.specs.Regions.{AreLeastTo};
ghost use Rattle.sota_bounds.specs.Search.{TIME_LIMIT, time_at};

use crate::least::least_to;
use crate::search::{Direction, least_times};
use sota_kept::LeastTime;
use sota_network::{Arc, Network};
use sota_units::{ArcId, NoMemory, NodeId, Tick};
use std::alloc::Global;

/// The first affected budget of each node, in ticks, where an arc gets another time that differs
/// from its own at no tick below `first`: that of node `i` stands at index `i - 1`. None: never.
/// No entry of the grid below it changes. Near-linear in nodes and arcs.
pub fn affected(
    alloc: Global,
    network: &Network,
    dest: NodeId,
    arc: ArcId,
    first: Tick,
) -> Result<Vec<LeastTime>, NoMemory>
    requires dest { IsNode network.now dest }
    requires arc { (1 ≤ arc) × (arc ≤ length network.now.arcs) }
    ensures { IfOk result (λ budgets. AreFirstAffected network.now dest arc first budgets.items) }
{
    let least = least_to(alloc, network, dest)?;
    affected_by_least(alloc, network, &least, dest, arc, first)
}

/// The same by the least times to the destination, which are known: one search, to the arc's tail.
pub fn affected_by_least(
    alloc: Global,
    network: &Network,
    least: &[LeastTime],
    dest: NodeId,
    arc: ArcId,
    first: Tick,
) -> Result<Vec<LeastTime>, NoMemory>
    requires least { AreLeastTo network.now dest least.now }
    requires arc { (1 ≤ arc) × (arc ≤ length network.now.arcs) }
    ensures { IfOk result (λ budgets. AreFirstAffected network.now dest arc first budgets.items) }
{
    let arc = network.numbered(arc);
    let onward = least[arc.head.get() as usize - 1];
    let to = least_times(alloc, network, Direction::Against, arc.tail, dest)?;
    Ok(with_onward(to, dest, arc, first, onward))
}

/// The first affected budgets of all nodes, by their least times to the arc's tail and the least
/// time from the arc's head on.
fn with_onward(
    mut times: Vec<LeastTime>,
    dest: NodeId,
    arc: &Arc,
    first: Tick,
    onward: LeastTime,
) -> Vec<LeastTime>
    requires nodes { length times.items ≤ NODE_LIMIT }
    requires to { All (λ time. IfSome time (λ n. n ≤ TIME_LIMIT)) times.items }
    requires onward { IfSome onward (λ n. n ≤ TIME_LIMIT) }
    ensures nodes { length result.items ≡ length times.items }
    ensures value { (i : ℕ) → 1 ≤ i → i ≤ length times.items → time_at result.items i
        ≡ first_affected_by dest arc.now first i (time_at times.items i) onward }
{
    for index in 0..times.len() {
        let node = NodeId(index as u32 + 1);
        times[index] = first_affected(dest, arc, first, node, times[index], onward);
    }
    times
}

/// The first affected budget of a node, by its least time to the arc's tail and the least time from
/// the arc's head on.
fn first_affected(
    dest: NodeId,
    arc: &Arc,
    first: Tick,
    node: NodeId,
    to: LeastTime,
    onward: LeastTime,
) -> LeastTime
    requires to { IfSome to (λ n. n ≤ TIME_LIMIT) }
    requires onward { IfSome onward (λ n. n ≤ TIME_LIMIT) }
    ensures { result ≡ first_affected_by dest arc.now first node to onward }
{
    if arc.tail == dest || node == dest {
        return LeastTime::NONE;
    }
    match (to.get(), onward.get()) {
        (Some(to), Some(onward)) => LeastTime::some(to + (u64::from(first.get()) + onward)),
        _ => LeastTime::NONE,
    }
}
