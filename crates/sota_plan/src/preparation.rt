// What an ask takes all its memory for, before an entry is filled.
ghost use Rattle.std.specs.Prelude.{ℕ, ◌≡◌, ◌-◌, ◌≤◌, ◌⊎◌, length, slice_index, IfOk, OnOk, OnErr};
ghost use Rattle.std.specs.Prelude.{Some};
ghost use Rattle.sota_units.specs.Limits.{BUDGET_LIMIT};
ghost use Rattle.sota_network.specs.Network.{IsNet, IsNode};
ghost use Rattle.sota_network.specs.Numbers.{listed};
ghost use Rattle.sota_bounds.specs.Regions.{IsRegion};
ghost use Rattle.sota_bounds.specs.Faults.{TABLE_LIMIT, BROAD_LIMIT};
ghost use Rattle.sota_kept.specs.States.{prepared_state};
ghost use Rattle.sota_kept.specs.NodeTables.{AreReady, known_end};
ghost use Rattle.sota_kept.specs.TableLists.{IsKept, state_of, table_of};
ghost use Rattle.sota_kept.specs.Asks.{IsPrepared};
ghost use Rattle.sota_tables.specs.Views.{IsTablesView, lists_of, table_at, room_of};
ghost use Rattle.sota_plan.specs.Steps.{base_by};
ghost use Rattle.sota_plan.specs.Runs.{IsReady};

use crate::run::Run;
use crate::steps::{bases_of, settle};
use crate::summers::make_summers;
use sota_bounds::AskRegion;
use sota_kept::kept::{needs_are_met, tables_stay_right};
use sota_kept::laws::least_ticks;
use sota_network::Network;
use sota_network::laws::{arcs_by_number, lists_by_number, region_by_least_times};
use sota_online::{Summer, Workspace};
use sota_order::Order;
use sota_order::laws::extents_of_tables;
use sota_tables::Tables;
use sota_tables::laws::views_are_lists;
use sota_units::NoMemory;
use std::alloc::Global;

/// Takes the first three steps of an ask, and makes room up to each need. All but the rooms is the
/// same where there is no memory for these.
fn make_room(
    tables: &mut Tables,
    network: &Network,
    region: &AskRegion,
    bases: &[u32],
) -> Result<(), NoMemory>
    requires valid { IsNet network.now }
    requires region { IsRegion region.now network.now region.now.origin region.now.dest
        region.now.budget }
    requires budget { region.now.budget ≤ BUDGET_LIMIT }
    requires cells { region.now.table_cells ≤ TABLE_LIMIT }
    requires kept { IsKept (lists_of tables.old) network.now }
    requires bases { bases.now ≡ listed (base_by region.now.least) network.now.nodes }
    ensures prepared { IsPrepared network.now region.now.origin region.now.dest region.now.budget
        (lists_of tables.old) (lists_of tables.new) }
    ensures ready { AreReady network.now region.now.dest (table_of (lists_of tables.new)) }
    ensures state { state_of (lists_of tables.new) ≡ prepared_state network.now region.now.origin
        region.now.dest region.now.budget (state_of (lists_of tables.old)) }
    ensures room { OnOk result ((i : ℕ) → IsNode network.now i
        → slice_index region.now.need (i - 1) - known_end (table_at tables.new i)
        ≤ room_of tables.new i) }
{
    least_ticks();
    lists_by_number();
    needs_are_met();
    tables_stay_right();
    views_are_lists();
    settle(tables, network, region, bases);
    tables.regrow(region.need.as_slice())
}

/// The order in which the entries of tables that are ready can be filled up to the needs.
fn order_of(
    alloc: Global,
    network: &Network,
    tables: &Tables,
    region: &AskRegion,
) -> Result<Order, NoMemory>
    requires valid { IsNet network.now }
    requires region { IsRegion region.now network.now region.now.origin region.now.dest
        region.now.budget }
    requires budget { region.now.budget ≤ BUDGET_LIMIT }
    requires dest { IsNode network.now region.now.dest }
    requires nodes { (length tables.now.fronts ≡ network.now.nodes)
        × (length tables.now.bases ≡ network.now.nodes) }
    requires ready { AreReady network.now region.now.dest (table_of (lists_of tables.now)) }
    ensures value { IfOk result (λ order. order ≡ record {
      dest = region.now.dest;
      fronts = tables.now.fronts;
      bases = tables.now.bases;
      needs = region.now.need;
    }) }
    ensures valid { IsTablesView tables.now }
{
    extents_of_tables();
    lists_by_number();
    needs_are_met();
    region_by_least_times();
    let bases = tables.bases();
    let fronts = tables.fronts();
    Order::new(
        alloc,
        network,
        region.dest,
        bases,
        fronts,
        region.need.as_slice(),
    )
}

/// Takes the first three steps of an ask, and all memory that its planning wants: room up to each
/// need, two summers for each broad arc with room in which they work, and an order. The tables are
/// those that are kept for the network, and the region is one of it within its limits. After
/// NoMemory the tables are still kept for the network, and as before or as after these steps.
pub fn prepare<'a, Z: Summer>(
    alloc: Global,
    network: &Network,
    tables: &mut Tables,
    region: &'a AskRegion,
) -> Result<Run<'a, Z>, NoMemory>
    requires kept { IsKept (lists_of tables.old) network.now }
    requires region { IsRegion region.now network.now region.now.origin region.now.dest
        region.now.budget }
    requires origin { IsNode network.now region.now.origin }
    requires dest { IsNode network.now region.now.dest }
    requires budget { region.now.budget ≤ BUDGET_LIMIT }
    requires table_cells { region.now.table_cells ≤ TABLE_LIMIT }
    requires broad_cells { region.now.broad_cells ≤ BROAD_LIMIT }
    ensures ready { IfOk result (λ run. IsReady run tables.new network.now) }
    ensures region { IfOk result (λ run. run.region ≡ region.now) }
    ensures state { OnOk result (state_of (lists_of tables.new)
        ≡ prepared_state network.now region.now.origin region.now.dest region.now.budget
        (state_of (lists_of tables.old))) }
    ensures kept { IsKept (lists_of tables.new) network.now }
    ensures refused { OnErr result ((lists_of tables.new ≡ lists_of tables.old)
        ⊎ (state_of (lists_of tables.new)
        ≡ prepared_state network.now region.now.origin region.now.dest region.now.budget
        (state_of (lists_of tables.old)))) }
{
    arcs_by_number();
    least_ticks();
    lists_by_number();
    needs_are_met();
    tables_stay_right();
    views_are_lists();
    // A check knows that the network is one once its nodes are counted.
    prove!(network.nodes() > 0);
    let bases = bases_of(alloc, region.least.as_slice())?;
    make_room(tables, network, region, &bases)?;
    let order = order_of(alloc, network, tables, region)?;
    let (broad, places) = make_summers(alloc, network, tables, region)?;
    let workspace = Workspace::make(alloc, places)?;
    Ok(Run {
        region,
        order,
        broad,
        workspace,
    })
}
