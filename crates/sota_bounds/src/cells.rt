// The needs and cells of a region, out of its least times.
ghost use Rattle.std.specs.Prelude.{ℕ, ◌≡◌, ◌+◌, ◌*◌, ◌≤◌, length, IfOk};
ghost use Rattle.std.specs.List.{All};
ghost use Rattle.sota_units.specs.Limits.{NODE_LIMIT, ARC_LIMIT, BUDGET_LIMIT};
ghost use Rattle.sota_network.specs.Network.{IsNode};
ghost use Rattle.sota_network.specs.Numbers.{listed};
ghost use Rattle.sota_network.specs.Region.{need_between};
ghost use Rattle.sota_bounds.specs.Cells.{need_by_times, pairs_by_need};
ghost use Rattle.sota_bounds.specs.Cells.{table_cells_by_lists, broad_cells_by_lists};
ghost use Rattle.sota_bounds.specs.Cells.{broad_cells_at};

use sota_kept::LeastTime;
use sota_network::laws::{lists_by_number, numbers_of_arcs};
use sota_network::{Network, broad_at};
use sota_units::{NoMemory, NodeId};
use std::alloc::Global;

/// The need of each of so many nodes.
pub(crate) fn needs_of(
    alloc: Global,
    nodes: u32,
    least: &[LeastTime],
    from: &[LeastTime],
    dest: NodeId,
    budget: u32,
) -> Result<Vec<u32>, NoMemory>
    requires budget { budget ≤ BUDGET_LIMIT }
    requires nodes { (nodes ≤ NODE_LIMIT) × (length least.now ≡ nodes) }
    requires same { length from.now ≡ nodes }
    ensures value { IfOk result (λ needs.
        needs.items ≡ listed (need_by_times dest budget least.now from.now) (length least.now)) }
    ensures nodes { IfOk result (λ needs. length needs.items ≡ length least.now) }
    ensures within { IfOk result (λ needs. All (λ need. need ≤ BUDGET_LIMIT + 1) needs.items) }
{
    lists_by_number();
    let mut needs = Vec::with_capacity(alloc, nodes as usize)?;
    for (index, to) in least.iter().enumerate() {
        let need = if index as u32 + 1 == dest.get() {
            0
        } else {
            need_between(*to, from[index], budget)
        };
        needs.push(need)?;
    }
    Ok(needs)
}

/// The need of a node that is not the destination.
fn need_between(to: LeastTime, from: LeastTime, budget: u32) -> u32
    requires { budget ≤ BUDGET_LIMIT }
    ensures { result ≡ need_between budget to from }
{
    let (Some(to), Some(from)) = (to.get(), from.get()) else {
        return 0;
    };
    let need = (u64::from(budget) + 1).saturating_sub(from);
    if to < need { need as u32 } else { 0 }
}

/// The number of pairs of a node with this time to the destination and this need.
fn pairs_of(to: LeastTime, need: u32) -> u64
    ensures value { result ≡ pairs_by_need to need }
    ensures within { result ≤ need }
{
    match to.get() {
        Some(to) => u64::from(need).saturating_sub(to),
        None => 0,
    }
}

/// The number of pairs of all nodes.
pub(crate) fn table_cells_of(least: &[LeastTime], needs: &[u32]) -> u64
    requires nodes { length least.now ≤ NODE_LIMIT }
    requires same { length needs.now ≡ length least.now }
    requires within { All (λ need. need ≤ BUDGET_LIMIT + 1) needs.now }
    ensures { result ≡ table_cells_by_lists least.now needs.now (length least.now) }
{
    let mut cells = 0;
    for (index, to) in least.iter().enumerate() {
        cells += pairs_of(*to, needs[index]);
    }
    cells
}

/// What all arcs add to the broad cells. Of a node without a pair no arc is looked at.
pub(crate) fn broad_cells_of(
    network: &Network,
    least: &[LeastTime],
    needs: &[u32],
    budget: u32,
) -> u64
    requires budget { budget ≤ BUDGET_LIMIT }
    requires nodes { length least.now ≡ network.now.nodes }
    requires same { length needs.now ≡ length least.now }
    requires within { All (λ need. need ≤ BUDGET_LIMIT + 1) needs.now }
    ensures { result ≡ broad_cells_by_lists budget least.now needs.now network.now.arcs }
{
    // A check knows that there are not too many arcs once they are counted.
    prove!(network.arc_count() <= 4_000_000);
    let mut cells = 0;
    for index in 0..network.nodes() {
        let pairs = pairs_of(least[index as usize], needs[index as usize]);
        cells += broad_cells_at(network, NodeId(index + 1), pairs, budget);
    }
    cells
}

/// What the arcs that leave a node with so many pairs add to the broad cells.
fn broad_cells_at(network: &Network, node: NodeId, pairs: u64, budget: u32) -> u64
    requires node { IsNode network.now node }
    requires budget { budget ≤ BUDGET_LIMIT }
    requires pairs { pairs ≤ BUDGET_LIMIT + 1 }
    requires arcs { length network.now.arcs ≤ ARC_LIMIT }
    ensures value { result ≡ broad_cells_at budget pairs node network.now.arcs }
    ensures within { result ≤ 2 * (BUDGET_LIMIT + 1) * ARC_LIMIT }
{
    numbers_of_arcs();
    if pairs == 0 {
        return 0;
    }
    let mut cells = 0;
    for number in network.leaving(node) {
        cells += broad_at(network.numbered(*number), pairs, budget);
    }
    cells
}
