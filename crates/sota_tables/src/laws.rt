// What is true of the definitions themselves. The functions do nothing: their contracts are the
// theorems.
ghost use Rattle.std.specs.Prelude.{ℕ, ◌≡◌, ◌-◌, List, length, slice_index, None, Some};
ghost use Rattle.sota_network.specs.Network.{Net, IsNet, IsNode};
ghost use Rattle.sota_kept.specs.Ticks.{least_to};
ghost use Rattle.sota_kept.specs.NodeTables.{AreReady, cut_to, emptied_table, rebased_table};
ghost use Rattle.sota_kept.specs.TableLists.{AreTables, IsKept, table_of};
ghost use Rattle.sota_tables.specs.Views.{TablesView, IsTablesView, HasNode, OnlyAt, table_at};
ghost use Rattle.sota_tables.specs.Views.{lists_of};

use sota_kept::kept::node_tables_stay_right;

/// The table of a node in a view is that in its lists.
pub fn views_are_lists()
    ensures table { (v : TablesView) (i : ℕ) → table_of (lists_of v) i ≡ table_at v i }
    ensures tables { (v : TablesView) → IsTablesView v
        → AreTables (lists_of v) (length v.fronts) }
{}

/// What the calls do to tables that are right for a network. After `new` and after `start` they are
/// right for each network of as many nodes, and after `cut_to` they stay right. After `rebase` to
/// the least times they are ready to be filled.
pub fn tables_stay_kept()
    ensures new { (v : TablesView) (net : Net) → v.dest ≡ None
        → (length v.fronts ≡ net.nodes) × (length v.bases ≡ net.nodes)
        → ((i : ℕ) → HasNode v i → (table_at v i).front ≡ 0) → IsKept (lists_of v) net }
    ensures start { (old new : TablesView) (net : Net) (dest : ℕ) → IsTablesView old
        → new.dest ≡ Some dest
        → (length new.fronts ≡ length old.fronts) × (length new.bases ≡ length old.bases)
        → ((i : ℕ) → HasNode old i → table_at new i ≡ emptied_table (table_at old i))
        → net.nodes ≡ length old.fronts → IsNode net dest → IsKept (lists_of new) net }
    ensures cut { (old new : TablesView) (net : Net) (node front : ℕ) → OnlyAt node old new
        → table_at new node ≡ cut_to front (table_at old node) → IsKept (lists_of old) net
        → IsKept (lists_of new) net }
    ensures rebase { (old new : TablesView) (bases : List ℕ) (net : Net) (dest : ℕ) → IsNet net
        → IsKept (lists_of old) net → old.dest ≡ Some dest
        → ((i : ℕ) → HasNode old i
        → table_at new i ≡ rebased_table (slice_index bases (i - 1)) (table_at old i))
        → ((i : ℕ) → IsNode net i → slice_index bases (i - 1) ≡ least_to net dest i)
        → AreReady net dest (table_of (lists_of new)) }
{
    node_tables_stay_right();
}
