// The row of a node.
ghost use Rattle.std.specs.Prelude.{◌≡◌, ◌==◌, ◌-◌, ◌<◌, ◌≤◌, length, slice_get, IsTrue, Some};
ghost use Rattle.std.specs.Option.{option_copied};
ghost use Rattle.std.specs.List.{find};
ghost use Rattle.sota_polfile.specs.declared.row.PolicyRow.{PolicyRow};

use sota_polfile::{PolicyRow, PolicyTable, rows_by_node};

/// The row of a node. It looks first at the place `near`, and leaves there the place at which the
/// row stands or would stand: so a search is made only where the node is another.
pub(crate) fn row_near<'a>(
    table: &'a PolicyTable,
    node: u32,
    near: &mut usize,
) -> Option<&'a PolicyRow>
    ensures { option_copied result ≡ find (λ row. row.node == node) table.now.rows }
{
    rows_by_node();
    let rows = table.rows();
    if has_at(rows, *near, node) {
        return Some(&rows[*near]);
    }
    if ends_below(rows, *near, node) && starts_above(rows, *near, node) {
        return None;
    }
    match table.place(node) {
        Ok(place) => {
            *near = place;
            Some(&rows[place])
        }
        Err(place) => {
            *near = place;
            None
        }
    }
}

/// The row at a place is the node's.
fn has_at(rows: &[PolicyRow], place: usize, node: u32) -> bool
    ensures within { IsTrue result → place < length rows.now }
    ensures node { IsTrue result → (row : PolicyRow) → slice_get rows.now place ≡ Some row
        → row.node ≡ node }
{
    place < rows.len() && rows[place].node == node
}

/// The rows before a place have lower nodes.
fn ends_below(rows: &[PolicyRow], place: usize, node: u32) -> bool
    ensures within { IsTrue result → place ≤ length rows.now }
    ensures below { IsTrue result → (row : PolicyRow) → 1 ≤ place
        → slice_get rows.now (place - 1) ≡ Some row → row.node < node }
{
    if rows.len() < place {
        return false;
    }
    if place == 0 {
        return true;
    }
    rows[place - 1].node < node
}

/// The rows from a place on have higher nodes.
fn starts_above(rows: &[PolicyRow], place: usize, node: u32) -> bool
    ensures { IsTrue result → (row : PolicyRow) → slice_get rows.now place ≡ Some row
        → node < row.node }
{
    if rows.len() <= place {
        return true;
    }
    node < rows[place].node
}
