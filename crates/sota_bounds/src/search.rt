// Dijkstra's search: nodes are settled by rising times from or to a source.
ghost use Rattle.std.specs.Prelude.{ℕ, ◌≡◌, ◌+◌, ◌^◌, ◌<◌, ◌≤◌, ◌++◌, ◌∷◌, length};
ghost use Rattle.std.specs.Prelude.{IfOk, IfSome, IfNone, OnOk};
ghost use Rattle.std.specs.List.{All};
ghost use Rattle.std.specs.List.Sorted.{IsPermutation};
ghost use Rattle.std.specs.BinaryHeap.{heap_items, IsHeap};
ghost use Rattle.sota_units.specs.Limits.{NODE_LIMIT, TICK_LIMIT};
ghost use Rattle.sota_network.specs.Network.{IsNode};
ghost use Rattle.sota_bounds.specs.Search.{target_of, arcs_at, time_at, next_visit, next_visits};
ghost use Rattle.sota_bounds.specs.Search.{by_time, IsLeastBetween, IsBeyond, IsFoundBetween};
ghost use Rattle.sota_bounds.specs.Search.{TIME_LIMIT};

use sota_kept::LeastTime;
use sota_network::laws::{arcs_by_number, numbers_of_arcs};
use sota_network::{Arc, Network};
use sota_units::{ArcId, NoMemory, NodeId};
use std::alloc::Global;
use std::cmp::Reverse;
use std::collections::BinaryHeap;

/// Which way the walks of a search go.
#[derive(Clone, Copy)]
pub(crate) enum Direction {
    /// Along the arcs, from the source.
    Along,
    /// Against the arcs: the walks end at the source.
    Against,
}

/// A node that a walk of this time joins to the source. The earlier visit is the greater one, since
/// a heap hands the greatest out first.
#[derive(Clone, Copy, PartialEq, Eq, PartialOrd, Ord)]
struct Visit {
    time: Reverse<u64>,
    node: NodeId,
}

/// The least time between the source and each node, over walks whose arcs are open and do not leave
/// the destination: that of node `i` stands at index `i - 1`. None: unreachable.
pub(crate) fn least_times(
    alloc: Global,
    network: &Network,
    direction: Direction,
    source: NodeId,
    dest: NodeId,
) -> Result<Vec<LeastTime>, NoMemory>
    requires { IsNode network.now source }
    ensures nodes { IfOk result (λ times. length times.items ≡ network.now.nodes) }
    ensures least { IfOk result (λ times. (i : ℕ) → IsNode network.now i
        → IsLeastBetween network.now dest direction source i (time_at times.items i)) }
    ensures few { IfOk result (λ times. length times.items ≤ NODE_LIMIT) }
    ensures within { IfOk result (λ times.
        All (λ time. IfSome time (λ n. n ≤ TIME_LIMIT)) times.items) }
{
    search(alloc, network, direction, source, dest, None)
}

/// The same where the least time is at most `most`. None: no walk takes so little. The search ends
/// there, so that it costs what lies within (Dijkstra 1959).
pub(crate) fn search(
    alloc: Global,
    network: &Network,
    direction: Direction,
    source: NodeId,
    dest: NodeId,
    most: Option<u64>,
) -> Result<Vec<LeastTime>, NoMemory>
    requires { IsNode network.now source }
    ensures nodes { IfOk result (λ times. length times.items ≡ network.now.nodes) }
    ensures found { IfOk result (λ times. (i : ℕ) → IsNode network.now i
        → IsFoundBetween most network.now dest direction source i (time_at times.items i)) }
    ensures few { IfOk result (λ times. length times.items ≤ NODE_LIMIT) }
    ensures within { IfOk result (λ times.
        All (λ time. IfSome time (λ n. n ≤ TIME_LIMIT)) times.items) }
{
    arcs_by_number();
    numbers_of_arcs();
    let mut times = vec![in alloc; LeastTime::NONE; network.nodes() as usize]?;
    let mut queue = BinaryHeap::new(alloc);
    queue.push(Visit {
        time: Reverse(0),
        node: source,
    })?;
    while let Some(visit) = earliest_within(&mut queue, most) {
        let index = visit.node.get() as usize - 1;
        if times[index].is_none() {
            times[index] = LeastTime::some(visit.time.0);
            queue_next(network, direction, dest, &visit, &times, &mut queue)?;
        }
    }
    Ok(times)
}

/// Takes the earliest visit. None: no visit is within the most.
fn earliest_within(queue: &mut BinaryHeap<Visit>, most: Option<u64>) -> Option<Visit>
    requires order { IsHeap by_time (heap_items queue.old) }
    ensures order { IsHeap by_time (heap_items queue.new) }
    ensures taken { IfSome result (λ visit.
        IsPermutation (heap_items queue.old) (visit ∷ heap_items queue.new)) }
    ensures earliest { IfSome result (λ visit.
        All (λ v. visit.time.0 ≤ v.time.0) (heap_items queue.old)) }
    ensures beyond { IfNone result (All (λ v. IsBeyond most v.time.0) (heap_items queue.old)) }
{
    let visit = queue.pop()?;
    match most {
        Some(most) if most < visit.time.0 => None,
        _ => Some(visit),
    }
}

/// Queues the visits to which one that was settled leads.
fn queue_next(
    network: &Network,
    direction: Direction,
    dest: NodeId,
    visit: &Visit,
    times: &[LeastTime],
    queue: &mut BinaryHeap<Visit>,
) -> Result<(), NoMemory>
    requires node { IsNode network.now visit.now.node }
    requires time { visit.now.time.0 < 2 ^ 63 }
    requires nodes { length times.now ≡ network.now.nodes }
    requires order { IsHeap by_time (heap_items queue.old) }
    ensures order { IsHeap by_time (heap_items queue.new) }
    ensures queued { OnOk result (IsPermutation
        (heap_items queue.old ++ next_visits network.now direction dest visit.now times.now)
        (heap_items queue.new)) }
    ensures soon { (limit : ℕ) → visit.now.time.0 + TICK_LIMIT ≤ limit
        → All (λ v. v.time.0 ≤ limit) (heap_items queue.old)
        → All (λ v. v.time.0 ≤ limit) (heap_items queue.new) }
{
    for number in direction.arcs_at(network, visit.node) {
        let arc = network.numbered(*number);
        if let Some(next) = direction.next_visit(arc, dest, visit, times) {
            queue.push(next)?;
        }
    }
    Ok(())
}

impl Direction {
    /// The numbers of the arcs over which a search leaves a node.
    fn arcs_at<'a>(self, network: &'a Network, node: NodeId) -> &'a [ArcId]
        requires { IsNode network.now node }
        ensures value { result.now ≡ arcs_at self network.now node }
        ensures within { All (λ e. (1 ≤ e) × (e ≤ length network.now.arcs)) result.now }
    {
        match self {
            Direction::Along => network.leaving(node),
            Direction::Against => network.entering(node),
        }
    }

    /// The end of an arc to which a search goes over it.
    fn target_of(self, arc: &Arc) -> NodeId
        ensures { result ≡ target_of self arc.now }
    {
        match self {
            Direction::Along => arc.head,
            Direction::Against => arc.tail,
        }
    }

    /// The visit to which a settled one leads over an arc: none where the arc leaves the
    /// destination or is closed, or its end is settled.
    fn next_visit(
        self,
        arc: &Arc,
        dest: NodeId,
        visit: &Visit,
        times: &[LeastTime],
    ) -> Option<Visit>
        requires end { (1 ≤ target_of self arc.now) × (target_of self arc.now ≤ length times.now) }
        requires time { visit.now.time.0 < 2 ^ 63 }
        ensures value { result ≡ next_visit self dest visit.now times.now arc.now }
        ensures soon { IfSome result (λ next. next.time.0 ≤ visit.now.time.0 + TICK_LIMIT) }
    {
        let node = self.target_of(arc);
        if arc.tail == dest || arc.time.is_closed() || !times[node.get() as usize - 1].is_none() {
            return None;
        }
        let time = Reverse(visit.time.0 + u64::from(arc.time.least().get()));
        Some(Visit { time, node })
    }
}
