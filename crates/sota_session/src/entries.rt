// The entries of a node, out of the tables.
ghost use Rattle.std.specs.Prelude.{◌≡◌, ◌-◌, ◌<◌, ℕ, map, unwrap_or, IfOk};
ghost use Rattle.std.specs.List.{range_with_len};
ghost use Rattle.sota_tables.specs.Views.{TablesView, IsKnownAt, choice_in};

use sota_tables::Tables;
use sota_units::{NoMemory, NodeId};
use std::alloc::Global;

/// What a table of one kind says for a node and a budget.
pub(crate) trait TableEntry: Copy {
    /// The entry, by what is known of the grid, a node and a budget.
    ghost entry_in: { TablesView → ℕ → ℕ → Self };

    /// The entry of a node at a budget.
    fn entry_of(tables: &Tables, node: NodeId, budget: u32) -> Self
        requires { IsKnownAt tables.now node budget }
        ensures { result ≡ entry_in tables.now node budget };
}

/// The entries of a node from a first budget up to below its need: none where that is no more.
#[tactic(auto, using(crate::proofs::Ranges::mapped_more))]
pub(crate) fn entries_of<E: TableEntry>(
    alloc: Global,
    tables: &Tables,
    node: NodeId,
    first: u32,
    need: u32,
) -> Result<Vec<E>, NoMemory>
    requires known { (t : ℕ) → t < need → IsKnownAt tables.now node t }
    ensures { IfOk result (λ entries.
        entries.items ≡ map (E.entry_in tables.now node) (range_with_len first (need - first))) }
{
    let end = need.max(first);
    let mut entries = Vec::with_capacity(alloc, (end - first) as usize)?;
    for budget in first..end {
        entries.push(E::entry_of(tables, node, budget))?;
    }
    Ok(entries)
}

/// The arc to take from a node at a budget, 0 for none.
pub(crate) fn arc_of(tables: &Tables, node: NodeId, budget: u32) -> u32
    requires { IsKnownAt tables.now node budget }
    ensures { result ≡ unwrap_or (choice_in tables.now node budget) 0 }
{
    match tables.choice(node, budget) {
        Some(arc) => arc.get(),
        None => 0,
    }
}
