// What an ask adds to the tables: the entries of its region that are missing.
ghost use Rattle.std.specs.Prelude.{ℕ, ◌≡◌, ◌+◌, ◌*◌, ◌≤◌, ◌⊎◌, None, Some, Err};
ghost use Rattle.std.specs.Prelude.{IfOk, IfErr, OnErr, OnOk};
ghost use Rattle.sota_units.specs.Limits.{BUDGET_LIMIT};
ghost use Rattle.sota_units.specs.Memory.{IsFault, Unless};
ghost use Rattle.sota_network.specs.Network.{Net, IsNet, IsNode};
ghost use Rattle.sota_kept.specs.Ticks.{least_to};
ghost use Rattle.sota_kept.specs.States.{after_ask, grown_state, missing, prepared_state};
ghost use Rattle.sota_kept.specs.TableLists.{IsKept, IsSettled, state_of};
ghost use Rattle.sota_bounds.specs.AskFaults.{range_refusal, size_refusal, is_shortage};
ghost use Rattle.sota_bounds.specs.Faults.{TABLE_LIMIT, BROAD_LIMIT, AreWithinLimits};
ghost use Rattle.sota_bounds.specs.Faults.{region_fault};
ghost use Rattle.sota_bounds.specs.Faults as regions;
ghost use Rattle.sota_bounds.specs.Regions.{AreLeastTo, IsRegion};
ghost use Rattle.sota_bounds.specs.declared.ask.AskRegion.{AskRegion};
ghost use Rattle.sota_bounds.specs.declared.fault.AskFault.TheVariants as asks;
ghost use Rattle.sota_tables.specs.Views.{TablesView, lists_of, table_at};
ghost use Rattle.sota_session.specs.Asks.{IsInRange};
ghost use Rattle.sota_session.specs.Answers.{is_of_range, is_of_size, is_refused, refusal_of};
ghost use Rattle.sota_session.specs.Rows.{IsPlanned};
ghost use Rattle.sota_session.specs.State.{IsLeft, pushes_for, state_after};

use crate::ask::Ask;
use crate::roads::Roads;
use sota_bounds::{AskFault, AskRegion, RegionFault, check_range, least_to, needs_by_least};
use sota_kept::kept::{needs_are_met, settled_entries};
use sota_network::Network;
use sota_network::laws::{grid_recurs, lists_by_number};
use sota_online::BlockSummer;
use sota_plan::{Run, extend, is_met, prepare};
use sota_tables::Tables;
use sota_tables::laws::views_are_lists;
use sota_units::{Items, NoMemory, Steps};
use std::alloc::Global;
use std::sync::ledger::Ledger;

/// How broad arcs are summed.
type Sums = BlockSummer;

/// Plans for an ask: its region, of which no entry is missing in the tables afterwards.
pub(crate) fn plan<M: Ledger, P: Ledger>(
    alloc: Global,
    roads: &mut Roads,
    tables: &mut Tables,
    ask: &Ask,
    products: &mut Steps<M>,
    pushes: &mut Steps<P>,
) -> Result<AskRegion, AskFault>
    requires kept { IsKept (lists_of tables.old) roads.old }
    ensures range { refusal_of is_of_range result
        ≡ range_refusal roads.old ask.now.origin ask.now.dest ask.now.budget }
    ensures size { range_refusal roads.old ask.now.origin ask.now.dest ask.now.budget ≡ None
        → Unless (is_refused is_shortage result) (refusal_of is_of_size result
        ≡ size_refusal roads.old ask.now.origin ask.now.dest ask.now.budget) }
    ensures memory { result ≡ Err asks.NoMemory → IsInRange roads.old ask.now }
    ensures in_range { OnOk result (IsInRange roads.old ask.now) }
    ensures asked { IfOk result (λ made. (made.origin ≡ ask.now.origin)
        × (made.dest ≡ ask.now.dest) × (made.budget ≡ ask.now.budget)) }
    ensures planned { IfOk result (λ made. IsPlanned made tables.new roads.old) }
    ensures settled { OnOk result (IsSettled (lists_of tables.new) roads.old) }
    ensures state { OnOk result (state_of (lists_of tables.new)
        ≡ state_after roads.old ask.now (state_of (lists_of tables.old))) }
    ensures count { OnOk result (pushes.new ≡ pushes.old
        + pushes_for roads.old ask.now (state_of (lists_of tables.old))) }
    ensures kept { IsKept (lists_of tables.new) roads.old }
    ensures no_push { OnErr result (pushes.new ≡ pushes.old) }
    ensures unchanged { OnErr result (Unless (is_refused is_shortage result)
        (lists_of tables.new ≡ lists_of tables.old)) }
    ensures left { OnErr result
        (IsLeft roads.old ask.now (lists_of tables.old) (lists_of tables.new)) }
    ensures least { IfOk result (λ made. AreLeastTo roads.old ask.now.dest made.least) }
    ensures same { roads.new ≡ roads.old }
    ensures valid { IsNet roads.old }
{
    check_range(roads.network(), ask.origin, ask.dest, ask.budget)?;
    let region = region_of(alloc, roads, ask)?;
    grow(alloc, roads.network(), tables, &region, products, pushes)?;
    Ok(region)
}

/// The region of an ask, by the least times that are kept where they are to its destination.
fn region_of(alloc: Global, roads: &mut Roads, ask: &Ask) -> Result<AskRegion, RegionFault>
    requires { IsInRange roads.old ask.now }
    ensures made { IfOk result (λ made.
        IsRegion made roads.old ask.now.origin ask.now.dest ask.now.budget) }
    ensures least { IfOk result (λ made. AreLeastTo roads.old ask.now.dest made.least) }
    ensures within { IfOk result (λ made. AreWithinLimits made.table_cells made.broad_cells) }
    ensures ok { OnOk result
        (region_fault roads.old ask.now.origin ask.now.dest ask.now.budget ≡ None) }
    ensures fault { IfErr result (λ fault. IsFault regions.is_shortage
        (region_fault roads.old ask.now.origin ask.now.dest ask.now.budget) fault) }
    ensures same { roads.new ≡ roads.old }
{
    let least = match roads.take_times(ask.dest) {
        Some(times) => times,
        None => Items::new(least_to(alloc, roads.network(), ask.dest)?),
    };
    let network = roads.network();
    let times = least.as_slice();
    match needs_by_least(alloc, network, times, ask.origin, ask.dest, ask.budget) {
        Ok(needs) => Ok(needs.with_least(least)),
        Err(fault) => {
            roads.keep_times(ask.dest, least);
            Err(fault)
        }
    }
}

/// Adds the entries of a region that are missing. Where the ask changes nothing no memory is taken.
fn grow<M: Ledger, P: Ledger>(
    alloc: Global,
    network: &Network,
    tables: &mut Tables,
    region: &AskRegion,
    products: &mut Steps<M>,
    pushes: &mut Steps<P>,
) -> Result<(), NoMemory>
    requires kept { IsKept (lists_of tables.old) network.now }
    requires region { IsRegion region.now network.now region.now.origin region.now.dest
        region.now.budget }
    requires origin { IsNode network.now region.now.origin }
    requires dest { IsNode network.now region.now.dest }
    requires budget { region.now.budget ≤ BUDGET_LIMIT }
    requires table_cells { region.now.table_cells ≤ TABLE_LIMIT }
    requires broad_cells { region.now.broad_cells ≤ BROAD_LIMIT }
    ensures planned { OnOk result (IsPlanned region.now tables.new network.now) }
    ensures settled { OnOk result (IsSettled (lists_of tables.new) network.now) }
    ensures state { OnOk result (state_of (lists_of tables.new)
        ≡ after_ask network.now region.now.origin region.now.dest region.now.budget
        (state_of (lists_of tables.old))) }
    ensures count { OnOk result (pushes.new ≡ pushes.old
        + 3 * missing network.now region.now.origin region.now.dest region.now.budget
        (state_of (lists_of tables.old))) }
    ensures kept { IsKept (lists_of tables.new) network.now }
    ensures no_push { OnErr result (pushes.new ≡ pushes.old) }
    ensures left { OnErr result ((lists_of tables.new ≡ lists_of tables.old)
        ⊎ (state_of (lists_of tables.new)
        ≡ prepared_state network.now region.now.origin region.now.dest region.now.budget
        (state_of (lists_of tables.old)))) }
{
    grown_tables_are_planned();
    if is_met(network, tables, region) {
        return Ok(());
    }
    let mut run = prepare::<Sums>(alloc, network, tables, region)?;
    extend(tables, network, &mut run, products, pushes);
    Ok(())
}

/// What is planned once the last step of an ask is taken, in tables that were ready for it.
fn grown_tables_are_planned()
    ensures { (net : Net) (region : AskRegion) (mid new : TablesView) → IsNet net
        → IsRegion region net region.origin region.dest region.budget
        → region.budget ≤ BUDGET_LIMIT → IsNode net region.origin → mid.dest ≡ Some region.dest
        → ((i : ℕ) → IsNode net i → (table_at mid i).front ≤ least_to net region.dest i
        → (table_at mid i).base ≡ least_to net region.dest i)
        → state_of (lists_of new)
        ≡ grown_state net region.origin region.dest region.budget (state_of (lists_of mid))
        → IsSettled (lists_of new) net → IsPlanned region new net }
{
    grid_recurs();
    lists_by_number();
    needs_are_met();
    settled_entries();
    views_are_lists();
}
