// Arcs that need no sums, since they cannot be best.
ghost use Rattle.std.specs.Prelude.{◌≡◌, ◌≢◌, ◌+◌, ◌-◌, ◌*◌, ◌<◌, true, length, slice_index};
ghost use Rattle.sota_network.specs.declared.network.Arc.{Arc};
ghost use Rattle.sota_tables.specs.Views.{HasNode, table_at};
ghost use Rattle.sota_fill.specs.Beaten.{IsBeaten};

use sota_network::Arc;
use sota_tables::Tables;
use sota_units::{Grain, NodeId, Scale};

/// The last value of a row, 0 where it is empty.
pub(crate) fn last_value(row: &[Grain]) -> Grain
    ensures { result ≡ slice_index row.now (length row.now - 1) }
{
    match row.last() {
        Some(value) => *value,
        None => Grain::ZERO,
    }
}

/// Whether the upper value at an arc's head is below a floor at the greatest budget that the arc's
/// sums read at budgets below `to`. It may be left unseen where the tables do not show it.
pub(crate) fn is_beaten(tables: &Tables, dest: NodeId, arc: &Arc, to: u32, floor: Grain) -> bool
    requires head { arc.now.head ≢ dest → HasNode tables.now arc.now.head }
    ensures { result ≡ true → IsBeaten dest arc.now to floor (table_at tables.now) }
{
    if arc.head == dest || arc.time.is_closed() {
        return false;
    }
    let before = u64::from(tables.base(arc.head)) + u64::from(arc.time.least().get()) + 1;
    let Some(index) = u64::from(to).checked_sub(before) else {
        return false;
    };
    match tables.upper_row(arc.head).get(index as usize) {
        Some(most) => most.get() < floor.get(),
        None => false,
    }
}

/// Whether the upper sums of an arc at budgets below `to` stay below a floor times the scale, by
/// the greatest of its lower ones: the two differ by at most two units a tick times the scale.
pub(crate) fn is_far_below(most: u128, scale: Scale, to: u32, floor: Grain) -> bool
    ensures { result ≡ true → most + scale * (2 * to) < scale * floor }
{
    let scale = u128::from(scale.get());
    most.saturating_add(scale * (2 * u128::from(to))) < scale * u128::from(floor.get())
}
