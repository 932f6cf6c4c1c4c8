// Where asks lead.
ghost use Rattle.std.specs.Prelude.{◌≡◌};
ghost use Rattle.sota_network.specs.Network.{IsNode};
ghost use Rattle.sota_kept.specs.Ticks.{END_LIMIT, up_to, least_to};
ghost use Rattle.sota_fill.specs.Fed.{IsTarget};

use sota_kept::LeastTime;
use sota_network::Network;
use sota_units::NodeId;

/// A network, a destination on it, and the least time of each node to it: that of node `i` stands
/// at index `i - 1`.
#[derive(Drop)]
pub struct Target<'a> {
    pub network: &'a Network,
    pub dest: NodeId,
    pub least: &'a [LeastTime],
}

impl<'a> Target<'a> {
    /// The base of a node: its least time, which never counts as one above the greatest budget.
    pub fn base(&self, node: NodeId) -> u32
        requires target { IsTarget self.now }
        requires node { IsNode self.now.network.now node }
        ensures { result ≡ least_to self.now.network.now self.now.dest node }
    {
        base_of(self.least[node.get() as usize - 1])
    }
}

/// The base of a node by its least time to the destination, which never counts as one above the
/// greatest budget.
pub fn base_of(time: LeastTime) -> u32
    ensures { result ≡ up_to END_LIMIT time }
{
    match time.get() {
        Some(ticks) => ticks.min(65_536) as u32,
        None => 65_536,
    }
}
