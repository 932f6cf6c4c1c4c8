// Whether the numbers of an ask are in range.
ghost use Rattle.std.specs.Prelude.{◌≡◌, None, Some, IfErr, OnOk};
ghost use Rattle.sota_network.specs.Network.{IsNet};
ghost use Rattle.sota_bounds.specs.Range.{range_fault};

use sota_network::Network;
use sota_units::{BUDGET_LIMIT, NodeId};

/// Which number of an ask is out of range.
#[derive(Clone, Copy, Debug, PartialEq, Eq)]
pub enum RangeFault {
    /// The origin is no node.
    NoOrigin,
    /// The destination is no node.
    NoDest,
    /// The budget exceeds 65,535 ticks.
    Budget,
}

/// Whether an ask is one of two nodes with a budget of at most 65,535 ticks: the first of its
/// numbers that is out of range is its fault.
pub fn check_range(
    network: &Network,
    origin: NodeId,
    dest: NodeId,
    budget: u32,
) -> Result<(), RangeFault>
    ensures ok { OnOk result (range_fault network.now origin dest budget ≡ None) }
    ensures fault { IfErr result (λ fault.
        range_fault network.now origin dest budget ≡ Some fault) }
    ensures valid { IsNet network.now }
{
    let nodes = network.nodes();
    if !origin.is_within(nodes) {
        Err(RangeFault::NoOrigin)
    } else if !dest.is_within(nodes) {
        Err(RangeFault::NoDest)
    } else if budget > BUDGET_LIMIT {
        Err(RangeFault::Budget)
    } else {
        Ok(())
    }
}
