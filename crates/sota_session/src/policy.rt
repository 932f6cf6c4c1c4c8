// The policy of an ask, out of the tables.
ghost use Rattle.std.specs.Prelude.{◌≡◌, All, length, IfOk, IfSome};
ghost use Rattle.std.specs.List.{filter_map, range_with_len};
ghost use Rattle.sota_network.specs.Network.{IsNet};
ghost use Rattle.sota_tables.specs.Views.{HasNode};
ghost use Rattle.sota_polfile.specs.Entry.{IsEntry};
ghost use Rattle.sota_polfile.specs.Table.{IsHead};
ghost use Rattle.sota_check.specs.Planned.{ask_head};
ghost use Rattle.sota_session.specs.Asks.{IsInRange};
ghost use Rattle.sota_session.specs.Plans.{IsPolicyFor};
ghost use Rattle.sota_session.specs.Rows.{Agrees, entry_in, row_in};

use crate::ask::Ask;
use crate::entries::{TableEntry, arc_of, entries_of};
use crate::laws::plans_by_least_times;
use crate::planned_table::PlannedTable;
use sota_bounds::AskRegion;
use sota_check::laws::{plans_hold, rows_make_plans};
use sota_network::Network;
use sota_network::laws::{lists_by_number, region_by_least_times};
use sota_polfile::{PolicyEntries, PolicyEntry, PolicyHead, PolicyRow, PolicyTable};
use sota_tables::Tables;
use sota_units::{NoMemory, NodeId};
use std::alloc::Global;

impl PlannedTable for PolicyTable {
    ghost is_for = { IsPolicyFor };

    fn make(
        alloc: Global,
        network: &Network,
        ask: &Ask,
        region: &AskRegion,
        tables: &Tables,
    ) -> Result<PolicyTable, NoMemory> {
        lists_by_number();
        region_by_least_times();
        plans_by_least_times();
        rows_make_plans();
        plans_hold();
        let rows = rows_of(alloc, network, region, tables)?;
        let head = head_of(network, ask);
        Ok(PolicyTable::from_parts(head, rows).unwrap())
    }
}

/// The head of what is planned for an ask.
pub(crate) fn head_of(network: &Network, ask: &Ask) -> PolicyHead
    requires { IsInRange network.now ask.now }
    ensures value { result
        ≡ ask_head network.now ask.now.origin ask.now.dest ask.now.budget }
    ensures valid { IsHead result }
    ensures net { IsNet network.now }
{
    PolicyHead {
        nodes: network.nodes(),
        dest: ask.dest.get(),
        origin: ask.origin.get(),
        budget: ask.budget,
        scale: network.scale().get(),
    }
}

/// The rows of all nodes that have one, in rising nodes.
#[tactic(auto, using(crate::proofs::Ranges::found_more))]
fn rows_of(
    alloc: Global,
    network: &Network,
    region: &AskRegion,
    tables: &Tables,
) -> Result<Vec<PolicyRow>, NoMemory>
    requires agrees { Agrees region.now tables.now }
    requires nodes { length tables.now.fronts ≡ network.now.nodes }
    ensures valid { IfOk result (λ rows. All (λ row. All IsEntry row.entries) rows.items) }
    ensures made { IfOk result (λ rows.
        rows.items ≡ filter_map (row_in region.now tables.now)
        (range_with_len 1 network.now.nodes)) }
{
    let needs = region.need.as_slice();
    let count = needs.iter().filter(|need| **need > 0).count();
    let mut rows = Vec::with_capacity(alloc, count)?;
    for node in 1..network.nodes() + 1 {
        if let Some(row) = row_of(alloc, region, tables, NodeId(node))? {
            rows.push(row)?;
        }
    }
    Ok(rows)
}

/// The row of a node. None exactly where it has no pair in the region.
fn row_of(
    alloc: Global,
    region: &AskRegion,
    tables: &Tables,
    node: NodeId,
) -> Result<Option<PolicyRow>, NoMemory>
    requires agrees { Agrees region.now tables.now }
    requires node { HasNode tables.now node }
    ensures made { IfOk result (λ row. row ≡ row_in region.now tables.now node) }
    ensures valid { IfOk result (λ row. IfSome row (λ row. All IsEntry row.entries)) }
{
    let index = node.get() as usize - 1;
    let need = region.need.as_slice()[index];
    let Some(first) = region.least.as_slice()[index].get() else {
        return Ok(None);
    };
    if first >= u64::from(need) {
        return Ok(None);
    }
    let entries = entries_of(alloc, tables, node, first as u32, need)?;
    Ok(Some(PolicyRow {
        node: node.get(),
        first: first as u32,
        entries: PolicyEntries::new(entries),
    }))
}

impl TableEntry for PolicyEntry {
    ghost entry_in = { entry_in };

    fn entry_of(tables: &Tables, node: NodeId, budget: u32) -> PolicyEntry {
        PolicyEntry {
            arc: arc_of(tables, node, budget),
            value: tables.lower(node, budget).get(),
        }
    }
}
