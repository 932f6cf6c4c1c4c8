// The bracket of an ask, out of the tables.
ghost use Rattle.std.specs.Prelude.{◌≡◌, All, length, map, IfOk};
ghost use Rattle.std.specs.List.{range_with_len};
ghost use Rattle.sota_kept.specs.Ticks.{END_LIMIT, up_to};
ghost use Rattle.sota_tables.specs.Views.{HasNode};
ghost use Rattle.sota_polfile.specs.Entry.{IsBracketEntry};
ghost use Rattle.sota_session.specs.Brackets.{IsBracketFor};
ghost use Rattle.sota_session.specs.Rows.{Agrees, bracket_in, bracket_row_in};

use crate::ask::Ask;
use crate::entries::{TableEntry, arc_of, entries_of};
use crate::laws::brackets_by_least_times;
use crate::planned_table::PlannedTable;
use crate::policy::head_of;
use sota_bounds::AskRegion;
use sota_check::laws::planned_brackets_hold;
use sota_kept::LeastTime;
use sota_kept::laws::least_ticks;
use sota_network::Network;
use sota_network::laws::{lists_by_number, region_by_least_times, regions_have_least_times};
use sota_polfile::{BracketEntries, BracketEntry, BracketRow, BracketTable};
use sota_tables::Tables;
use sota_units::{BUDGET_LIMIT, NoMemory, NodeId};
use std::alloc::Global;

impl PlannedTable for BracketTable {
    ghost is_for = { IsBracketFor };

    fn make(
        alloc: Global,
        network: &Network,
        ask: &Ask,
        region: &AskRegion,
        tables: &Tables,
    ) -> Result<BracketTable, NoMemory> {
        brackets_by_least_times();
        planned_brackets_hold();
        least_ticks();
        lists_by_number();
        region_by_least_times();
        regions_have_least_times();
        let rows = rows_of(alloc, network, region, tables)?;
        let head = head_of(network, ask);
        Ok(BracketTable::from_parts(head, rows).unwrap())
    }
}

/// The rows of all nodes.
#[tactic(auto, using(crate::proofs::Ranges::mapped_more))]
fn rows_of(
    alloc: Global,
    network: &Network,
    region: &AskRegion,
    tables: &Tables,
) -> Result<Vec<BracketRow>, NoMemory>
    requires agrees { Agrees region.now tables.now }
    requires nodes { length tables.now.fronts ≡ network.now.nodes }
    ensures made { IfOk result (λ rows. rows.items
        ≡ map (bracket_row_in region.now tables.now) (range_with_len 1 network.now.nodes)) }
    ensures valid { IfOk result (λ rows.
        All (λ row. All IsBracketEntry row.entries) rows.items) }
{
    let mut rows = Vec::with_capacity(alloc, network.nodes() as usize)?;
    for node in 1..network.nodes() + 1 {
        rows.push(row_of(alloc, region, tables, NodeId(node))?)?;
    }
    Ok(rows)
}

/// The row of a node.
fn row_of(
    alloc: Global,
    region: &AskRegion,
    tables: &Tables,
    node: NodeId,
) -> Result<BracketRow, NoMemory>
    requires agrees { Agrees region.now tables.now }
    requires node { HasNode tables.now node }
    ensures made { IfOk result (λ row. row ≡ bracket_row_in region.now tables.now node) }
    ensures valid { IfOk result (λ row. All IsBracketEntry row.entries) }
{
    let index = node.get() as usize - 1;
    let need = region.need.as_slice()[index];
    let first = first_budget(region.least.as_slice()[index]);
    let entries = entries_of(alloc, tables, node, first, need)?;
    Ok(BracketRow {
        first,
        entries: BracketEntries::new(entries),
    })
}

/// The first budget at which a node can arrive, by its least time to the destination.
fn first_budget(least: LeastTime) -> u32
    ensures { result ≡ up_to END_LIMIT least }
{
    match least.get() {
        Some(ticks) if ticks <= u64::from(BUDGET_LIMIT) => ticks as u32,
        _ => BUDGET_LIMIT + 1,
    }
}

impl TableEntry for BracketEntry {
    ghost entry_in = { bracket_in };

    fn entry_of(tables: &Tables, node: NodeId, budget: u32) -> BracketEntry {
        BracketEntry {
            arc: arc_of(tables, node, budget),
            lower: tables.lower(node, budget).get(),
            upper: tables.upper(node, budget).get(),
        }
    }
}
