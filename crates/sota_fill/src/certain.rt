// Nodes whose last entry settles all further ones.
ghost use Rattle.std.specs.Prelude.{ℕ, ◌≡◌, ◌≤◌, length, Some};
ghost use Rattle.sota_network.specs.Network.{IsNode};
ghost use Rattle.sota_tables.specs.Views.{table_at};
ghost use Rattle.sota_fill.specs.Certain.{EndsCertain};

use sota_network::Network;
use sota_tables::Tables;
use sota_units::{ArcId, Grain, NodeId};

/// The arc to take at each further budget of a node, where its last entry is certain and takes the
/// first arc that leaves the node. None where the last entry is not so.
pub(crate) fn certain_arc(network: &Network, tables: &Tables, node: NodeId) -> Option<ArcId>
    requires node { IsNode network.now node }
    requires nodes { length tables.now.fronts ≡ network.now.nodes }
    ensures certain { (e : ℕ) → result ≡ Some e
        → EndsCertain network.now node e (table_at tables.now node) }
    ensures number { (e : ℕ) → result ≡ Some e → 1 ≤ e }
{
    let first = network.leaving(node).first()?;
    let value = tables.lower_row(node).last()?;
    let choice = tables.choice_row(node).last()?.get()?;
    if value.get() == Grain::ONE.get() && choice == *first {
        Some(choice)
    } else {
        None
    }
}
