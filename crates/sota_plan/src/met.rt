// Whether an ask finds all that it wants in the tables.
ghost use Rattle.std.specs.Prelude.{ℕ, ◌≡◌, ◌≤◌, length, true};
ghost use Rattle.sota_units.specs.Limits.{BUDGET_LIMIT};
ghost use Rattle.sota_network.specs.Network.{IsNode};
ghost use Rattle.sota_bounds.specs.Regions.{IsRegion};
ghost use Rattle.sota_kept.specs.TableLists.{IsKept};
ghost use Rattle.sota_tables.specs.Views.{HasNode, IsTablesView, lists_of};
ghost use Rattle.sota_plan.specs.Met.{IsMet, has_all};

use crate::steps::{is_over, is_towards};
use sota_bounds::AskRegion;
use sota_fill::base_of;
use sota_kept::kept::{asks_end, needs_are_met, tables_stay_right};
use sota_kept::laws::least_ticks;
use sota_network::Network;
use sota_network::laws::lists_by_number;
use sota_tables::Tables;
use sota_tables::laws::views_are_lists;
use sota_units::NodeId;

/// Whether a node has its base, and its entries up to its need.
fn has_all(tables: &Tables, region: &AskRegion, node: NodeId) -> bool
    requires node { HasNode tables.now node }
    requires least { length region.now.least ≡ length tables.now.fronts }
    requires need { length region.now.need ≡ length tables.now.fronts }
    ensures { result ≡ has_all tables.now region.now node }
{
    let index = node.get() as usize - 1;
    let front = tables.front(node);
    let base = tables.base(node);
    let least = base_of(region.least.as_slice()[index]);
    region.need.as_slice()[index] <= front.max(base) && (least < front || base == least)
}

/// Whether each node has them.
fn all_have(tables: &Tables, region: &AskRegion) -> bool
    requires least { length region.now.least ≡ length tables.now.fronts }
    requires need { length region.now.need ≡ length tables.now.fronts }
    ensures valid { IsTablesView tables.now }
    ensures each { result ≡ true → (i : ℕ) → HasNode tables.now i
        → has_all tables.now region.now i ≡ true }
{
    let nodes = tables.fronts().len() as u32;
    for index in 0..nodes {
        if !has_all(tables, region, NodeId(index + 1)) {
            return false;
        }
    }
    true
}

/// Whether an ask changes nothing: the tables are towards its destination, each node has its base
/// and its entries up to its need, and they are not too much to keep. The tables are those that are
/// kept for the network, and the region is one of it. One pass over the nodes, or less where an
/// entry is missing.
pub fn is_met(network: &Network, tables: &Tables, region: &AskRegion) -> bool
    requires kept { IsKept (lists_of tables.now) network.now }
    requires region { IsRegion region.now network.now region.now.origin region.now.dest
        region.now.budget }
    requires dest { IsNode network.now region.now.dest }
    requires budget { region.now.budget ≤ BUDGET_LIMIT }
    ensures { result ≡ true → IsMet region.now tables.now network.now }
{
    asks_end();
    least_ticks();
    lists_by_number();
    needs_are_met();
    tables_stay_right();
    views_are_lists();
    // A check knows that the network is one once its nodes are counted.
    prove!(network.nodes() > 0);
    if !is_towards(tables, region.dest) {
        return false;
    }
    if !all_have(tables, region) {
        return false;
    }
    !is_over(tables, region.need.as_slice())
}
