// Tables of their own for one ask.
ghost use Rattle.std.specs.Prelude.{◌≡◌, ◌+◌, ◌*◌, ◌≤◌, IfOk, IfErr, OnOk, OnErr, None};
ghost use Rattle.sota_units.specs.Limits.{BUDGET_LIMIT};
ghost use Rattle.sota_units.specs.Memory.{IsFault};
ghost use Rattle.sota_network.specs.Network.{IsNode};
ghost use Rattle.sota_network.specs.Region.{table_cells};
ghost use Rattle.sota_bounds.specs.Regions.{IsRegion};
ghost use Rattle.sota_bounds.specs.AskFaults.{size_refusal, is_shortage};
ghost use Rattle.sota_bounds.specs.Faults.{TABLE_LIMIT, BROAD_LIMIT};
ghost use Rattle.sota_quantile.specs.Bounds.{HasBounds};

use sota_bounds::laws::asks_miss;
use sota_bounds::{AskFault, AskRegion, region};
use sota_kept::kept::{needs_are_met, settled_entries};
use sota_network::Network;
use sota_network::laws::{grid_recurs, lists_by_number};
use sota_online::BlockSummer;
use sota_plan::{extend, prepare};
use sota_tables::Tables;
use sota_tables::laws::{tables_stay_kept, views_are_lists};
use sota_units::{NoMemory, NodeId, Steps};
use std::alloc::Global;
use std::sync::ledger::Ledger;

/// What sums up the values at the head of a broad arc.
type Sums = BlockSummer;

/// Tables with all entries of an ask in range, and no others: each entry is three pushes.
pub(crate) fn plan<M: Ledger, P: Ledger>(
    alloc: Global,
    network: &Network,
    origin: NodeId,
    dest: NodeId,
    budget: u32,
    products: &mut Steps<M>,
    pushes: &mut Steps<P>,
) -> Result<Tables, AskFault>
    requires origin { IsNode network.now origin }
    requires dest { IsNode network.now dest }
    requires budget { budget ≤ BUDGET_LIMIT }
    ensures bounds { IfOk result (λ tables. HasBounds tables network.now dest origin budget) }
    ensures ok { OnOk result (size_refusal network.now origin dest budget ≡ None) }
    ensures fault { IfErr result (λ fault.
        IsFault is_shortage (size_refusal network.now origin dest budget) fault) }
    ensures count { OnOk result (pushes.new
        ≡ pushes.old + 3 * table_cells network.now origin dest budget) }
    ensures refused { OnErr result (pushes.new ≡ pushes.old) }
{
    let region = region(alloc, network, origin, dest, budget)?;
    Ok(fill(alloc, network, &region, products, pushes)?)
}

/// Tables with all entries of a region within the limits.
fn fill<M: Ledger, P: Ledger>(
    alloc: Global,
    network: &Network,
    region: &AskRegion,
    products: &mut Steps<M>,
    pushes: &mut Steps<P>,
) -> Result<Tables, NoMemory>
    requires region { IsRegion region.now network.now region.now.origin region.now.dest
        region.now.budget }
    requires origin { IsNode network.now region.now.origin }
    requires dest { IsNode network.now region.now.dest }
    requires budget { region.now.budget ≤ BUDGET_LIMIT }
    requires table_cells { region.now.table_cells ≤ TABLE_LIMIT }
    requires broad_cells { region.now.broad_cells ≤ BROAD_LIMIT }
    ensures bounds { IfOk result (λ tables. HasBounds tables network.now region.now.dest
        region.now.origin region.now.budget) }
    ensures count { OnOk result (pushes.new ≡ pushes.old + 3 * region.now.table_cells) }
    ensures refused { OnErr result (pushes.new ≡ pushes.old) }
{
    asks_miss();
    grid_recurs();
    lists_by_number();
    needs_are_met();
    settled_entries();
    tables_stay_kept();
    views_are_lists();
    let mut tables = Tables::new(alloc, network.nodes())?;
    let mut run = prepare::<Sums>(alloc, network, &mut tables, region)?;
    extend(&mut tables, network, &mut run, products, pushes);
    Ok(tables)
}
