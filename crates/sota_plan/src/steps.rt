// The first three steps of an ask: another destination begins afresh, nodes take their least times
// as bases, and where too much would be kept all begins afresh.
ghost use Rattle.std.specs.Prelude.{ℕ, ◌≡◌, ◌+◌, ◌-◌, ◌*◌, ◌≤◌, not, length, slice_index, IfOk};
ghost use Rattle.std.specs.Prelude.{Some, if◌then◌else◌};
ghost use Rattle.std.specs.List.{All};
ghost use Rattle.sota_network.specs.Network.{IsNet};
ghost use Rattle.sota_network.specs.Numbers.{listed};
ghost use Rattle.sota_bounds.specs.Regions.{IsRegion};
ghost use Rattle.sota_kept.specs.Ticks.{END_LIMIT};
ghost use Rattle.sota_kept.specs.States.{is_dest, prepared_state};
ghost use Rattle.sota_kept.specs.NodeTables.{emptied_table, rebased_table, AreReady};
ghost use Rattle.sota_kept.specs.TableLists.{IsKept, table_of, state_of};
ghost use Rattle.sota_kept.specs.Asks.{IsPrepared};
ghost use Rattle.sota_tables.specs.Views.{HasNode, IsTablesView, table_at, lists_of};
ghost use Rattle.sota_plan.specs.Steps.{base_by, cells_of, too_many, StepsTaken};

use sota_bounds::AskRegion;
use sota_fill::base_of;
use sota_kept::LeastTime;
use sota_kept::kept::tables_stay_right;
use sota_kept::laws::least_ticks;
use sota_network::Network;
use sota_network::laws::lists_by_number;
use sota_tables::Tables;
use sota_tables::laws::views_are_lists;
use sota_units::{NoMemory, NodeId};
use std::alloc::Global;

/// The most entries that are kept.
const KEPT_LIMIT: u64 = 60_000_000;

/// The base of each node by its least time to the destination.
pub(crate) fn bases_of(alloc: Global, least: &[LeastTime]) -> Result<Vec<u32>, NoMemory>
    ensures { IfOk result (λ bases. bases.items ≡ listed (base_by least.now) (length least.now)) }
{
    let mut bases = Vec::with_capacity(alloc, least.len())?;
    for index in 0..least.len() {
        bases.push(base_of(least[index]))?;
    }
    Ok(bases)
}

/// Whether this is the destination of the tables.
pub(crate) fn is_towards(tables: &Tables, dest: NodeId) -> bool
    ensures value { result ≡ is_dest tables.now.dest dest }
    ensures valid { IsTablesView tables.now }
{
    match tables.dest() {
        Some(old) => old == dest,
        None => false,
    }
}

/// Begins afresh towards another destination.
fn begin(tables: &mut Tables, dest: NodeId)
    ensures valid { IsTablesView tables.old }
    ensures dest { tables.new.dest ≡ Some dest }
    ensures nodes { (length tables.new.fronts ≡ length tables.old.fronts)
        × (length tables.new.bases ≡ length tables.old.bases) }
    ensures tables { (i : ℕ) → HasNode tables.old i → table_at tables.new i
        ≡ if not (is_dest tables.old.dest dest) then emptied_table (table_at tables.old i)
        else table_at tables.old i }
{
    if !is_towards(tables, dest) {
        tables.start(dest);
    }
}

/// How many entries would be kept once the needs are met.
fn cells_kept(tables: &Tables, needs: &[u32]) -> u64
    requires { length needs.now ≡ length tables.now.fronts }
    ensures { result ≡ cells_of tables.now needs.now (length tables.now.fronts) }
{
    let fronts = tables.fronts();
    let bases = tables.bases();
    let mut cells = 0;
    for index in 0..needs.len() {
        let end = fronts[index].max(needs[index]);
        cells += u64::from(end.saturating_sub(bases[index]));
    }
    cells
}

/// Whether that is too much.
pub(crate) fn is_over(tables: &Tables, needs: &[u32]) -> bool
    requires { length needs.now ≡ length tables.now.fronts }
    ensures { result ≡ too_many tables.now needs.now (length tables.now.fronts) }
{
    cells_kept(tables, needs) > KEPT_LIMIT
}

/// Begins afresh where too much would be kept.
fn limit(tables: &mut Tables, dest: NodeId, needs: &[u32], bases: &[u32])
    requires dest { tables.old.dest ≡ Some dest }
    requires needs { length needs.now ≡ length tables.old.fronts }
    requires bases { length bases.now ≡ length tables.old.fronts }
    requires within { All (λ base. base ≤ END_LIMIT) bases.now }
    ensures dest { tables.new.dest ≡ Some dest }
    ensures nodes { (length tables.new.fronts ≡ length tables.old.fronts)
        × (length tables.new.bases ≡ length tables.old.bases) }
    ensures tables { (i : ℕ) → HasNode tables.old i → table_at tables.new i
        ≡ if too_many tables.old needs.now (length tables.old.fronts)
        then rebased_table (slice_index bases.now (i - 1)) (emptied_table (table_at tables.old i))
        else table_at tables.old i }
{
    if is_over(tables, needs) {
        tables.start(dest);
        tables.rebase(bases);
    }
}

/// Takes the three steps with these bases.
fn change(tables: &mut Tables, region: &AskRegion, bases: &[u32])
    requires nodes { (length region.now.need ≡ length tables.old.fronts)
        × (length bases.now ≡ length tables.old.fronts) }
    requires within { All (λ base. base ≤ END_LIMIT) bases.now }
    ensures valid { IsTablesView tables.old }
    ensures dest { tables.new.dest ≡ Some region.now.dest }
    ensures nodes { (length tables.new.fronts ≡ length tables.old.fronts)
        × (length tables.new.bases ≡ length tables.old.bases) }
    ensures tables { StepsTaken tables.old tables.new region.now.dest region.now.need bases.now }
{
    begin(tables, region.dest);
    tables.rebase(bases);
    limit(tables, region.dest, region.need.as_slice(), bases);
}

/// Takes the three steps. The bases are those of the region's least times.
fn take_steps(tables: &mut Tables, network: &Network, region: &AskRegion, bases: &[u32])
    requires valid { IsNet network.now }
    requires region { IsRegion region.now network.now region.now.origin region.now.dest
        region.now.budget }
    requires nodes { (length tables.old.fronts ≡ network.now.nodes)
        × (length tables.old.bases ≡ network.now.nodes) }
    requires bases { bases.now ≡ listed (base_by region.now.least) network.now.nodes }
    ensures valid { IsTablesView tables.old }
    ensures prepared { IsPrepared network.now region.now.origin region.now.dest region.now.budget
        (lists_of tables.old) (lists_of tables.new) }
{
    least_ticks();
    lists_by_number();
    tables_stay_right();
    views_are_lists();
    change(tables, region, bases);
}

/// Takes the three steps on tables that are right for the network: they are then ready to be
/// filled, and their state is that before the last step of the ask.
pub(crate) fn settle(tables: &mut Tables, network: &Network, region: &AskRegion, bases: &[u32])
    requires valid { IsNet network.now }
    requires region { IsRegion region.now network.now region.now.origin region.now.dest
        region.now.budget }
    requires kept { IsKept (lists_of tables.old) network.now }
    requires bases { bases.now ≡ listed (base_by region.now.least) network.now.nodes }
    ensures valid { IsTablesView tables.old }
    ensures prepared { IsPrepared network.now region.now.origin region.now.dest region.now.budget
        (lists_of tables.old) (lists_of tables.new) }
    ensures ready { AreReady network.now region.now.dest (table_of (lists_of tables.new)) }
    ensures state { state_of (lists_of tables.new) ≡ prepared_state network.now region.now.origin
        region.now.dest region.now.budget (state_of (lists_of tables.old)) }
{
    tables_stay_right();
    views_are_lists();
    take_steps(tables, network, region, bases);
}
