// The rows of a bracket table.
ghost use Rattle.std.specs.Prelude.{◌≡◌, All};
ghost use Rattle.sota_polfile.specs.Entry.{IsBracketEntry};
ghost use Rattle.sota_polfile.specs.Table.{entry_from};
ghost use Rattle.sota_polfile.specs.Bracket.{part_head};

use crate::row::RowHead;
use crate::{BracketEntries, BracketEntry};

/// The first budget of a node, below which none arrives in time, and the node's entries for the
/// budgets `first`, `first + 1` and so on.
#[derive(Drop)]
pub struct BracketRow {
    /// In ticks, at most 65,536; 0 at the destination.
    pub first: u32,
    /// None at the destination. The last budget is at most the head's.
    pub entries: BracketEntries,
}

impl BracketRow {
    /// The entry for this budget. None exactly where the row has none.
    pub fn entry(&self, budget: u32) -> Option<BracketEntry>
        ensures { result ≡ entry_from self.now.first self.now.entries budget }
    {
        if budget < self.first {
            return None;
        }
        let place = (budget - self.first) as usize;
        self.entries.as_slice().get(place).copied()
    }

    /// What a file says of it before its entries, as the row of this node.
    pub(crate) fn numbers(&self, node: u32) -> RowHead
        ensures value { result ≡ part_head node self.now }
        ensures entries { All IsBracketEntry self.now.entries }
    {
        RowHead {
            node,
            first: self.first,
            count: self.entries.len() as u64,
        }
    }
}
