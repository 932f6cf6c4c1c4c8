// The least budget at which a bound is as great as a confidence.
ghost use Rattle.std.specs.Prelude.{ℕ, ◌≡◌, ◌≤◌};
ghost use Rattle.sota_units.specs.Limits.{BUDGET_LIMIT};
ghost use Rattle.sota_tables.specs.Views.{IsKnownAt};
ghost use Rattle.sota_quantile.specs.Bounds.{bound_in};
ghost use Rattle.sota_quantile.specs.Needs.{least_budget};

use sota_sums::Bound;
use sota_tables::Tables;
use sota_units::{Grain, NodeId};

/// A bound of a node at a budget.
fn value_of(bound: Bound, tables: &Tables, node: NodeId, budget: u32) -> Grain
    requires { IsKnownAt tables.now node budget }
    ensures { result ≡ bound_in bound tables.now node budget }
{
    match bound {
        Bound::Lower => tables.lower(node, budget),
        Bound::Upper => tables.upper(node, budget),
    }
}

/// The least budget of at most `most` at which a bound of a node is at least the confidence. It is
/// searched by halves: more time makes no bound less.
pub(crate) fn find_least(
    tables: &Tables,
    node: NodeId,
    bound: Bound,
    confidence: Grain,
    most: u32,
) -> Option<u32>
    requires known { IsKnownAt tables.now node most }
    requires limit { most ≤ BUDGET_LIMIT }
    requires rises { (t u : ℕ) → t ≤ u → u ≤ most
        → bound_in bound tables.now node t ≤ bound_in bound tables.now node u }
    ensures { result ≡ least_budget (bound_in bound tables.now node) confidence most }
{
    let mut from = 0;
    let mut to = most + 1;
    while from < to {
        let middle = from + (to - from) / 2;
        if value_of(bound, tables, node, middle) < confidence {
            from = middle + 1;
        } else {
            to = middle;
        }
    }
    if from <= most { Some(from) } else { None }
}
