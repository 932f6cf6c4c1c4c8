// Least times to a node and from a node.
ghost use Rattle.std.specs.Prelude.{ℕ, ◌≡◌, ◌-◌, ◌≤◌, length, slice_index_or, IfOk, IfSome};
ghost use Rattle.std.specs.Prelude.{None};
ghost use Rattle.std.specs.List.{All};
ghost use Rattle.sota_network.specs.Network.{IsNode};
ghost use Rattle.sota_network.specs.Walks.{IsLeastTime};
ghost use Rattle.sota_bounds.specs.Regions.{AreLeastTo};
ghost use Rattle.sota_bounds.specs.Search.{TIME_LIMIT};

use crate::search::{Direction, least_times};
use sota_kept::LeastTime;
use sota_network::Network;
use sota_units::{NoMemory, NodeId};
use std::alloc::Global;

/// The least time from each node to the destination, in ticks, over walks whose arcs are open and
/// do not leave it: that of node `i` stands at index `i - 1`. None: unreachable. Near-linear in
/// nodes and arcs (Dijkstra 1959).
pub fn least_to(alloc: Global, network: &Network, dest: NodeId) -> Result<Vec<LeastTime>, NoMemory>
    requires { IsNode network.now dest }
    ensures { IfOk result (λ times. AreLeastTo network.now dest times.items) }
{
    least_times(alloc, network, Direction::Against, dest, dest)
}

/// The least time from the origin to each node, in ticks, over walks whose arcs are open and do not
/// leave the destination: that of node `i` stands at index `i - 1`. None: unreachable. Near-linear
/// in nodes and arcs (Dijkstra 1959).
pub fn least_from(
    alloc: Global,
    network: &Network,
    origin: NodeId,
    dest: NodeId,
) -> Result<Vec<LeastTime>, NoMemory>
    requires { IsNode network.now origin }
    ensures nodes { IfOk result (λ times. length times.items ≡ network.now.nodes) }
    ensures least { IfOk result (λ times. (i : ℕ) → IsNode network.now i
        → IsLeastTime network.now dest origin i (slice_index_or times.items (i - 1) None)) }
    ensures within { IfOk result (λ times.
        All (λ time. IfSome time (λ n. n ≤ TIME_LIMIT)) times.items) }
{
    least_times(alloc, network, Direction::Along, origin, dest)
}
