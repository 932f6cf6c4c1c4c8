// The rows of a policy.
ghost use Rattle.std.specs.Prelude.{◌≡◌, All};
ghost use Rattle.sota_polfile.specs.Entry.{IsEntry};
ghost use Rattle.sota_polfile.specs.Table.{row_head, entry_for};
ghost use Rattle.sota_polfile.specs.Faults.{is_row_head, is_unordered, numbers_fault};

use crate::{PolicyEntries, PolicyEntry, PolicyFault, PolicyHead};

/// The entries of a node, for the budgets `first`, `first + 1` and so on.
#[derive(Drop)]
pub struct PolicyRow {
    /// The node, not the destination.
    pub node: u32,
    /// The budget of the first entry, in ticks.
    pub first: u32,
    /// At least one, and the last budget is at most the head's.
    pub entries: PolicyEntries,
}

/// What a file says of a row before its entries.
#[derive(Clone, Copy)]
pub(crate) struct RowHead {
    pub node: u32,
    pub first: u32,
    pub count: u64,
}

impl PolicyRow {
    /// The entry for this budget. None exactly where the row has none.
    pub(crate) fn entry(&self, budget: u32) -> Option<PolicyEntry>
        ensures { result ≡ entry_for self.now budget }
    {
        if budget < self.first {
            return None;
        }
        let place = (budget - self.first) as usize;
        self.entries.as_slice().get(place).copied()
    }

    pub(crate) fn numbers(&self) -> RowHead
        ensures value { result ≡ row_head self.now }
        ensures entries { All IsEntry self.now.entries }
    {
        RowHead {
            node: self.node,
            first: self.first,
            count: self.entries.len() as u64,
        }
    }
}

impl RowHead {
    fn is_in_range(self, head: &PolicyHead) -> bool
        ensures { result ≡ is_row_head head.now self }
    {
        (1..=head.nodes).contains(&self.node)
            && self.node != head.dest
            && 1 <= self.count
            && self.first <= head.budget
            && self.count <= u64::from(head.budget - self.first) + 1
    }

    /// The row does not come after the row of the node `before`.
    fn is_unordered(self, before: Option<u32>) -> bool
        ensures { result ≡ is_unordered before self.node }
    {
        match before {
            Some(node) => self.node <= node,
            None => false,
        }
    }

    /// The fault of the numbers of this row, counted from 1, after a row of the node `before`.
    #[tactic(auto, unfolding(crate::specs::Faults::numbers_fault))]
    pub(crate) fn fault(
        self,
        head: &PolicyHead,
        before: Option<u32>,
        number: u32,
    ) -> Option<PolicyFault>
        ensures { result ≡ numbers_fault head.now before number self }
    {
        if self.is_unordered(before) {
            return Some(PolicyFault::Order(number));
        }
        if !self.is_in_range(head) {
            return Some(PolicyFault::Range(number));
        }
        None
    }
}
