// The region of an ask.
ghost use Rattle.std.specs.Prelude.{ℕ, ◌≡◌, ◌≤◌, IfOk, IfErr, OnOk, None};
ghost use Rattle.sota_units.specs.Limits.{BUDGET_LIMIT};
ghost use Rattle.sota_units.specs.Memory.{IsFault};
ghost use Rattle.sota_network.specs.Network.{Net, IsNode};
ghost use Rattle.sota_bounds.specs.Faults.{region_fault, is_shortage, AreWithinLimits};
ghost use Rattle.sota_bounds.specs.Regions.{IsRegion, AreNeeds, AreLeastTo};

use crate::RegionFault;
use crate::cells::{broad_cells_of, needs_of, table_cells_of};
use crate::least::least_to;
use crate::search::{Direction, search};
use sota_kept::LeastTime;
use sota_network::Network;
use sota_network::laws::{lists_by_number, region_by_least_times, regions_have_least_times};
use sota_units::{Items, NoMemory, NodeId};
use std::alloc::Global;

/// The region of an ask: the pairs of a node and a budget from which the destination can be
/// reached, and to which an origin that began with the whole budget can have come.
#[derive(Drop)]
pub struct AskRegion {
    pub origin: NodeId,
    pub dest: NodeId,
    /// The whole budget, in ticks.
    pub budget: u32,
    /// The least time from each node to the destination, in ticks: that of node `i` stands at
    /// index `i - 1`. None: unreachable.
    pub least: Items<LeastTime>,
    /// One more than the greatest budget of each node's pairs, 0 where it has none: that of node
    /// `i` stands at index `i - 1`.
    pub need: Items<u32>,
    /// The number of pairs.
    pub table_cells: u64,
    /// For each broad arc the pairs of its tail and the span of its ticks within the budget.
    pub broad_cells: u64,
}

/// The most table cells that are planned for.
const TABLE_LIMIT: u64 = 60_000_000;

/// The most broad cells that are planned for.
const BROAD_LIMIT: u64 = 40_000_000;

/// What an ask needs of each node, and how many cells this takes, by the least times to its
/// destination.
#[derive(Drop)]
pub struct AskNeeds {
    pub origin: NodeId,
    pub dest: NodeId,
    /// The whole budget, in ticks.
    pub budget: u32,
    /// One more than the greatest budget of each node's pairs, 0 where it has none: that of node
    /// `i` stands at index `i - 1`.
    pub need: Items<u32>,
    /// The number of pairs.
    pub table_cells: u64,
    /// For each broad arc the pairs of its tail and the span of its ticks within the budget.
    pub broad_cells: u64,
}

impl AskNeeds {
    /// The region with these least times to its destination.
    pub fn with_least(self, least: Items<LeastTime>) -> AskRegion
        ensures made { (net : Net) (origin dest budget : ℕ) → AreLeastTo net dest least
            → AreNeeds self net least origin dest budget → IsRegion result net origin dest budget }
        ensures least { result.least ≡ least }
        ensures cells { (result.table_cells ≡ self.table_cells)
            × (result.broad_cells ≡ self.broad_cells) }
    {
        AskRegion {
            origin: self.origin,
            dest: self.dest,
            budget: self.budget,
            least,
            need: self.need,
            table_cells: self.table_cells,
            broad_cells: self.broad_cells,
        }
    }
}

/// The region of an ask whose budget is at most 65,535 ticks. TableCells exactly where the table
/// cells exceed 60,000,000, else BroadCells exactly where the broad cells exceed 40,000,000.
/// Near-linear in nodes and arcs.
pub fn region(
    alloc: Global,
    network: &Network,
    origin: NodeId,
    dest: NodeId,
    budget: u32,
) -> Result<AskRegion, RegionFault>
    requires origin { IsNode network.now origin }
    requires dest { IsNode network.now dest }
    requires budget { budget ≤ BUDGET_LIMIT }
    ensures made { IfOk result (λ made. IsRegion made network.now origin dest budget) }
    ensures within { IfOk result (λ made. AreWithinLimits made.table_cells made.broad_cells) }
    ensures ok { OnOk result (region_fault network.now origin dest budget ≡ None) }
    ensures fault { IfErr result (λ fault.
        IsFault is_shortage (region_fault network.now origin dest budget) fault) }
{
    let least = least_to(alloc, network, dest)?;
    let needs = needs_by_least(alloc, network, &least, origin, dest, budget)?;
    Ok(needs.with_least(Items::new(least)))
}

/// What the region of an ask is besides the least times to its destination, which are known.
/// Refused as the region is. Costs what lies within the budget of the origin, and passes over nodes
/// and arcs.
pub fn needs_by_least(
    alloc: Global,
    network: &Network,
    least: &[LeastTime],
    origin: NodeId,
    dest: NodeId,
    budget: u32,
) -> Result<AskNeeds, RegionFault>
    requires origin { IsNode network.now origin }
    requires budget { budget ≤ BUDGET_LIMIT }
    requires least { AreLeastTo network.now dest least.now }
    ensures made { IfOk result (λ made.
        AreNeeds made network.now least.now origin dest budget) }
    ensures within { IfOk result (λ made. AreWithinLimits made.table_cells made.broad_cells) }
    ensures ok { OnOk result (region_fault network.now origin dest budget ≡ None) }
    ensures fault { IfErr result (λ fault.
        IsFault is_shortage (region_fault network.now origin dest budget) fault) }
{
    let made = all_needs(alloc, network, least, origin, dest, budget)?;
    if made.table_cells > TABLE_LIMIT {
        return Err(RegionFault::TableCells(made.table_cells));
    }
    if made.broad_cells > BROAD_LIMIT {
        return Err(RegionFault::BroadCells(made.broad_cells));
    }
    Ok(made)
}

/// The same, however large the region is.
fn all_needs(
    alloc: Global,
    network: &Network,
    least: &[LeastTime],
    origin: NodeId,
    dest: NodeId,
    budget: u32,
) -> Result<AskNeeds, NoMemory>
    requires origin { IsNode network.now origin }
    requires budget { budget ≤ BUDGET_LIMIT }
    requires least { AreLeastTo network.now dest least.now }
    ensures { IfOk result (λ made. AreNeeds made network.now least.now origin dest budget) }
{
    region_by_least_times();
    regions_have_least_times();
    lists_by_number();
    let most = Some(u64::from(budget));
    let from = search(alloc, network, Direction::Along, origin, dest, most)?;
    let need = needs_of(alloc, network.nodes(), least, &from, dest, budget)?;
    let table_cells = table_cells_of(least, &need);
    let broad_cells = broad_cells_of(network, least, &need, budget);
    Ok(AskNeeds {
        origin,
        dest,
        budget,
        need: Items::new(need),
        table_cells,
        broad_cells,
    })
}
