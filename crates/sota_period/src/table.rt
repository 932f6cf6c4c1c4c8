// Rows of values, one for each node.
ghost use Rattle.std.specs.Prelude.{◌≡◌, ◌≤◌, length};
ghost use Rattle.sota_period.specs.Rows.{row_room, timed_row};

use sota_bank::RowBank;
use sota_units::{Grain, NodeId};

/// The row of a node: its values at budgets from 0 on, as far as they are known.
pub(crate) fn row_of(rows: &RowBank<Grain>, node: NodeId) -> &[Grain]
    requires { (1 ≤ node) × (node ≤ length rows.now) }
    ensures { result.now ≡ timed_row rows.now node }
{
    rows.front(node.get() as usize - 1)
}

/// How many values of a node are known: never more than its row has room for.
pub(crate) fn known_of(rows: &RowBank<Grain>, node: NodeId) -> u32
    requires { (1 ≤ node) × (node ≤ length rows.now) }
    ensures value { result ≡ length (timed_row rows.now node) }
    ensures within { result ≤ row_room rows.now node }
{
    let row = node.get() as usize - 1;
    rows.len(row).min(rows.cap(row))
}
