// What the order says of kept tables. The functions do nothing: their contracts are the theorems.
ghost use Rattle.std.specs.Prelude.{ℕ, ◌≡◌, ◌≤◌};
ghost use Rattle.sota_units.specs.Limits.{BUDGET_LIMIT};
ghost use Rattle.sota_network.specs.Network.{Net, IsNet, IsNode};
ghost use Rattle.sota_network.specs.Region.{need};
ghost use Rattle.sota_kept.specs.NodeTables.{NodeTable, AreReady, IsExtent, known_end};
ghost use Rattle.sota_order.specs.Orders.{OrderView, HeadsSuffice, IsReach, order_end, need_at};

use sota_kept::kept::needs_are_met;
use sota_network::laws::arcs_by_number;

/// Where the known ends of an order are those of tables that are ready, the needs of an ask can be
/// met, and each extent reads its heads below the known ends of the tables.
pub fn extents_of_tables()
    ensures heads { (net : Net) (origin dest last : ℕ) (w : OrderView) (tables : ℕ → NodeTable)
        → IsNet net → last ≤ BUDGET_LIMIT → w.dest ≡ dest → AreReady net dest tables
        → ((i : ℕ) → IsNode net i → known_end (tables i) ≡ order_end w i)
        → ((i : ℕ) → IsNode net i → need_at w i ≡ need net origin dest last i)
        → HeadsSuffice net w }
    ensures extent { (net : Net) (w : OrderView) (tables : ℕ → NodeTable) (i to : ℕ)
        → IsNet net → IsReach net w i to
        → ((j : ℕ) → IsNode net j → known_end (tables j) ≡ order_end w j)
        → IsExtent net w.dest tables i to }
{
    arcs_by_number();
    needs_are_met();
}
