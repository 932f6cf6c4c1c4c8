// The summers of broad arcs.
ghost use Rattle.std.specs.Prelude.{ℕ, ◌≡◌, ◌+◌, ◌≤◌, map, length};
ghost use Rattle.std.specs.Prelude.{slice_index, Some, IfOk};
ghost use Rattle.std.specs.List.{All};
ghost use Rattle.std.specs.Option.{option_copied, option_map};
ghost use Rattle.sota_units.specs.Limits.{BUDGET_LIMIT};
ghost use Rattle.sota_network.specs.Network.{arc_at};
ghost use Rattle.sota_network.specs.declared.network.Arc.{Arc};
ghost use Rattle.sota_period.specs.Rows.{timed_row};
ghost use Rattle.sota_online.specs.Summer.{SummerState};
ghost use Rattle.sota_period.specs.Broad.{AllFedRows, AreSame, IsWorkFor};
ghost use Rattle.sota_period.specs.Broad.{first_summer_state, is_summed, kernel_length};
ghost use Rattle.sota_period.specs.Broad.{state_at, summer_state};

use crate::table::{known_of, row_of};
use sota_bank::RowBank;
use sota_fill::feed_row;
use sota_network::{Arc, Network};
use sota_online::{Summer, Workspace};
use sota_units::{ArcId, Grain, NoMemory, Steps, Tick};
use std::alloc::Global;
use std::sync::ledger::Ledger;

/// An arc with more ticks than these within what its tail needs is broad.
const NARROW: usize = 32;

/// Whether the sums of an arc at the budgets from `from` on are made by a summer.
fn is_summed(arc: &Arc, needs: &[u32], from: usize) -> bool
    requires { (1 ≤ arc.now.tail) × (arc.now.tail ≤ length needs.now) }
    ensures { result ≡ is_summed needs.now from arc.now }
{
    let need = needs[arc.tail.get() as usize - 1];
    from < need as usize && NARROW < arc.time.within(Tick(need - 1)).len()
}

/// A summer of an arc where it is wanted, with room for what its head needs.
fn make_summer<Z: Summer>(
    alloc: Global,
    arc: &Arc,
    needs: &[u32],
    from: usize,
) -> Result<Option<Box<Z>>, NoMemory>
    requires tail { (1 ≤ arc.now.tail) × (arc.now.tail ≤ length needs.now) }
    requires head { (1 ≤ arc.now.head) × (arc.now.head ≤ length needs.now) }
    requires within { All (λ n. n ≤ BUDGET_LIMIT + 1) needs.now }
    ensures { IfOk result (λ found.
        summer_state Z.state found ≡ first_summer_state needs.now from arc.now) }
{
    if !is_summed(arc, needs, from) {
        return Ok(None);
    }
    let start = (from as u32 + 1).saturating_sub(arc.time.least().get());
    let length = needs[arc.head.get() as usize - 1];
    let summer = Z::make(alloc, &arc.time, length, start)?;
    Ok(Some(Box::new(alloc, summer)?))
}

/// How long the kernel of a summer is, 0 where there is none.
fn places_of<Z: Summer>(found: &Option<Box<Z>>) -> u32
    ensures { result ≡ kernel_length (summer_state Z.state found.now) }
{
    match found {
        Some(summer) => summer.span(),
        None => 0,
    }
}

/// The summers of all arcs for the budgets from `from` on, and how long their longest kernel is.
/// That of arc `e` stands at index `e - 1`.
pub(crate) fn make_summers<Z: Summer>(
    alloc: Global,
    network: &Network,
    needs: &[u32],
    from: usize,
) -> Result<(Vec<Option<Box<Z>>>, u32), NoMemory>
    requires nodes { network.now.nodes ≡ length needs.now }
    requires within { All (λ n. n ≤ BUDGET_LIMIT + 1) needs.now }
    ensures states { IfOk result (λ made. map (summer_state Z.state) made.0.items
        ≡ map (first_summer_state needs.now from) network.now.arcs) }
    ensures places { IfOk result (λ made.
        All (λ arc. IsWorkFor made.1 (first_summer_state needs.now from arc)) network.now.arcs) }
    ensures within { IfOk result (λ made. made.1 ≤ BUDGET_LIMIT + 1) }
{
    let arcs = network.arcs();
    let mut summers = Vec::with_capacity(alloc, arcs.len())?;
    let mut places = 0;
    for arc in arcs {
        let made = make_summer(alloc, arc, needs, from)?;
        places = places_of(&made).max(places);
        summers.push(made)?;
    }
    Ok((summers, places))
}

/// Feeds the summer of an arc, where it has one, the row of its head as far as it goes.
pub(crate) fn feed_arc<Z: Summer, M: Ledger>(
    network: &Network,
    number: ArcId,
    rows: &RowBank<Grain>,
    broad: &mut [Option<Box<Z>>],
    workspace: &mut Workspace,
    products: &mut Steps<M>,
)
    requires number { (1 ≤ number) × (number ≤ length network.now.arcs) }
    requires broad { length broad.old ≡ length network.now.arcs }
    requires rows { network.now.nodes ≤ length rows.now }
    requires fed { AllFedRows rows.now network.now (state_at Z.state broad.old) }
    requires work { (arc : Arc) (state : SummerState) → arc_at network.now number ≡ Some arc
        → state_at Z.state broad.old number ≡ Some state → length state.kernel ≤ workspace.old }
    ensures fed { AllFedRows rows.now network.now (state_at Z.state broad.new) }
    ensures same { AreSame (state_at Z.state broad.old) (state_at Z.state broad.new) }
    ensures reach { (arc : Arc) (state : SummerState) → arc_at network.now number ≡ Some arc
        → state_at Z.state broad.new number ≡ Some state
        → length (timed_row rows.now arc.head) ≤ length state.values }
    ensures length { length broad.new ≡ length broad.old }
    ensures work { workspace.new ≡ workspace.old }
{
    let head = network.numbered(number).head;
    let known = known_of(rows, head);
    let row = row_of(rows, head);
    if let Some(summer) = &mut broad[number.get() as usize - 1] {
        feed_row(&mut **summer, row, 0, known, workspace, products);
    }
}

/// The summer of an arc, where it has one.
pub(crate) fn summer_of<'a, Z: Summer>(broad: &'a [Option<Box<Z>>], arc: ArcId) -> Option<&'a Z>
    requires { (1 ≤ arc) × (arc ≤ length broad.now) }
    ensures { option_map Z.state (option_copied result) ≡ state_at Z.state broad.now arc }
{
    match &broad[arc.get() as usize - 1] {
        Some(summer) => Some(summer),
        None => None,
    }
}
