// Why a route is refused.
ghost use Rattle.std.specs.Prelude.{◌≡◌, ◌≤◌, length, None, IfNone};
ghost use Rattle.std.specs.List.{All};
ghost use Rattle.sota_units.specs.Limits.{BUDGET_LIMIT};
ghost use Rattle.sota_network.specs.Network.{IsNet};
ghost use Rattle.sota_route.specs.Faults.{ROUTE_LIMIT, can_leave, has_arrived};
ghost use Rattle.sota_route.specs.Faults.{leg_fault};
ghost use Rattle.sota_route.specs.Faults.{route_fault, route_word, route_number};

use sota_network::Network;
use sota_units::{ArcId, BUDGET_LIMIT, NoMemory, NodeId};

/// The most arcs of a route.
const ROUTE_LIMIT: usize = 1000;

/// Why a route is refused.
#[derive(Clone, Copy, Debug, PartialEq, Eq)]
pub enum RouteFault {
    /// The destination is no node.
    NoDest,
    /// The budget exceeds 65,535 ticks.
    Budget,
    /// It has so many arcs, more than 1,000.
    RouteArcs(u64),
    /// No arc has the number at this place of the route, counted from 1.
    NoLeg(u32),
    /// The arc at this place does not leave the head of the one before.
    Broken(u32),
    /// The last arc does not lead to the destination.
    NotThere,
    /// Memory was wanted, and there was none. It is no fault of the route.
    NoMemory,
}

impl RouteFault {
    /// Its name, as replies print it.
    pub fn word(self) -> &'static [u8]
        ensures { result.now ≡ route_word self }
    {
        match self {
            RouteFault::NoDest => b"NoDest",
            RouteFault::Budget => b"Budget",
            RouteFault::RouteArcs(_) => b"RouteArcs",
            RouteFault::NoLeg(_) => b"NoLeg",
            RouteFault::Broken(_) => b"Broken",
            RouteFault::NotThere => b"NotThere",
            RouteFault::NoMemory => b"NoMemory",
        }
    }

    /// The number of arcs or the place. None exactly where the fault has none.
    pub fn number(self) -> Option<u64>
        ensures { result ≡ route_number self }
    {
        match self {
            RouteFault::RouteArcs(count) => Some(count),
            RouteFault::NoLeg(place) | RouteFault::Broken(place) => Some(u64::from(place)),
            _ => None,
        }
    }
}

impl From<NoMemory> for RouteFault {
    ghost use Rattle.sota_route.specs.declared.fault.RouteFault.TheVariants.{NoMemory};

    ghost from_gives = { λ _ fault. fault ≡ NoMemory };

    fn from(_: NoMemory) -> Self {
        RouteFault::NoMemory
    }
}

/// The first fault of a route.
pub(crate) fn find_route_fault(
    network: &Network,
    dest: NodeId,
    budget: u32,
    route: &[ArcId],
) -> Option<RouteFault>
    ensures value { result ≡ route_fault network.now dest budget route.now }
    ensures budget { IfNone result (budget ≤ BUDGET_LIMIT) }
    ensures arcs { IfNone result
        (All (λ e. (1 ≤ e) × (e ≤ length network.now.arcs)) route.now) }
    ensures valid { IsNet network.now }
{
    if !dest.is_within(network.nodes()) {
        Some(RouteFault::NoDest)
    } else if budget > BUDGET_LIMIT {
        Some(RouteFault::Budget)
    } else if route.len() > ROUTE_LIMIT {
        Some(RouteFault::RouteArcs(route.len() as u64))
    } else {
        find_leg_fault(network, dest, route)
    }
}

/// The first place whose arc is none or does not leave the head of the one before, or else whether
/// the last head is another node than the destination.
fn find_leg_fault(network: &Network, dest: NodeId, route: &[ArcId]) -> Option<RouteFault>
    requires { length route.now ≤ ROUTE_LIMIT }
    ensures value { result ≡ leg_fault network.now dest None 1 route.now }
    ensures arcs { IfNone result
        (All (λ e. (1 ≤ e) × (e ≤ length network.now.arcs)) route.now) }
{
    let mut at = None;
    for index in 0..route.len() {
        let place = index as u32 + 1;
        let Some(arc) = network.arc(route[index]) else {
            return Some(RouteFault::NoLeg(place));
        };
        if !can_leave(at, arc.tail) {
            return Some(RouteFault::Broken(place));
        }
        at = Some(arc.head);
    }
    if has_arrived(dest, at) {
        None
    } else {
        Some(RouteFault::NotThere)
    }
}

/// Whether an arc from a node can be taken by who stands at one, or anywhere yet.
fn can_leave(at: Option<NodeId>, tail: NodeId) -> bool
    ensures { result ≡ can_leave at tail }
{
    match at {
        Some(at) => at == tail,
        None => true,
    }
}

/// Whether who stands at a node, or anywhere yet, is at the destination.
fn has_arrived(dest: NodeId, at: Option<NodeId>) -> bool
    ensures { result ≡ has_arrived dest at }
{
    match at {
        Some(at) => at == dest,
        None => false,
    }
}
