// What an edit leaves of the tables.
ghost use Rattle.std.specs.Prelude.{ℕ, ◌≡◌, length};
ghost use Rattle.sota_kept.specs.Ticks.{END_LIMIT, up_to};
ghost use Rattle.sota_kept.specs.NodeTables.{cut_to};
ghost use Rattle.sota_bounds.specs.Search.{time_at};
ghost use Rattle.sota_tables.specs.Views.{HasNode, SameNodes, table_at};

use sota_kept::LeastTime;
use sota_tables::Tables;
use sota_units::{BUDGET_LIMIT, NodeId};

/// Keeps the entries of each node below its first affected budget, and all where that is never,
/// which is None: that of node `i` stands at index `i - 1`.
pub(crate) fn cut_all(tables: &mut Tables, budgets: &[LeastTime])
    requires { length budgets.now ≡ length tables.old.fronts }
    ensures nodes { SameNodes tables.old tables.new }
    ensures tables { (i : ℕ) → HasNode tables.old i → table_at tables.new i
        ≡ cut_to (up_to END_LIMIT (time_at budgets.now i)) (table_at tables.old i) }
{
    let count = tables.fronts().len();
    for index in 0..count {
        tables.cut_to(NodeId(index as u32 + 1), front_below(budgets[index]));
    }
}

/// A front that keeps the entries below a budget.
fn front_below(budget: LeastTime) -> u32
    ensures { result ≡ up_to END_LIMIT budget }
{
    let most = u64::from(BUDGET_LIMIT) + 1;
    budget.get().map_or(most, |budget| budget.min(most)) as u32
}
