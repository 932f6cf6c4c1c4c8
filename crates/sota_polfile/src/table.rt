// A policy in memory.
ghost use Rattle.std.specs.Prelude.{ℕ, ◌≡◌, ◌==◌, ◌*◌, ◌<◌, ◌≤◌, ◌↔◌, length, slice_get};
ghost use Rattle.std.specs.Prelude.{IsOk, IfOk, IfErr, OnErr, IfNone, None, Some};
ghost use Rattle.std.specs.Option.{option_copied};
ghost use Rattle.std.specs.List.{find};
ghost use Rattle.std.specs.List.Sorted.{IsStrictlyIncreasing};
ghost use Rattle.sota_polfile.specs.declared.row.PolicyRow.{PolicyRow};
ghost use Rattle.sota_polfile.specs.Table.{Table, IsTable, cells};
ghost use Rattle.sota_polfile.specs.Table.{entry_of};
ghost use Rattle.sota_polfile.specs.Faults.{parts_fault};

use crate::{PolicyEntry, PolicyFault, PolicyHead, PolicyRow};
use std::marker::Model;

/// A policy: its head, and rows in rising nodes whose numbers are in their ranges.
#[derive(Drop)]
pub struct PolicyTable {
    pub(crate) head: PolicyHead,
    pub(crate) rows: Vec<PolicyRow>,
}

impl Model for PolicyTable {
    ghost use Rattle.sota_polfile.specs.Table.{Table, IsTable};

    ghost Value = { Table };

    ghost view = { λ a. record { head = a.head; rows = a.rows.items } };

    ghost invariant = { λ a. IsTable (record { head = a.head; rows = a.rows.items }) };
}

/// The fault of the head, or else of the first row that has one.
fn parts_fault(head: &PolicyHead, rows: &[PolicyRow]) -> Option<PolicyFault>
    ensures value { result ≡ parts_fault head.now rows.now }
    ensures valid { IfNone result (IsTable (record { head = head.now; rows = rows.now })) }
{
    if !head.is_in_range() {
        return Some(PolicyFault::Range(0));
    }
    let mut before = None;
    let mut number = 1;
    for row in rows {
        if let Some(fault) = row.numbers().fault(head, before, number) {
            return Some(fault);
        }
        before = Some(row.node);
        number += 1;
    }
    None
}

impl PolicyTable {
    /// The table of these parts, or the fault of parts that are none: `Range(0)` for the head, or
    /// `Order` or `Range` for the first row that is out of order or has a number out of its range.
    /// It takes no memory.
    pub fn from_parts(head: PolicyHead, rows: Vec<PolicyRow>) -> Result<PolicyTable, PolicyFault>
        ensures made { IfOk result (λ table. table ≡ record { head = head; rows = rows.items }) }
        ensures valid { IsOk result ↔ IsTable (record { head = head; rows = rows.items }) }
        ensures fault { IfErr result (λ fault. parts_fault head rows.items ≡ Some fault) }
    {
        match parts_fault(&head, &rows) {
            Some(fault) => Err(fault),
            None => Ok(PolicyTable { head, rows }),
        }
    }

    /// Whose policy it is.
    pub fn head(&self) -> &PolicyHead
        ensures value { result.now ≡ self.now.head }
        ensures valid { IsTable self.now }
    {
        &self.head
    }

    /// The rows, in rising nodes.
    #[tactic(auto, using(crate::proofs::Parts::table_bound))]
    pub fn rows(&self) -> &[PolicyRow]
        ensures value { result.now ≡ self.now.rows }
        ensures valid { IsTable self.now }
        ensures few { length self.now.rows ≤ self.now.head.nodes }
    {
        self.rows.as_slice()
    }

    /// The number of entries.
    #[tactic(auto, using(crate::proofs::Parts::cells_bound))]
    pub fn cells(&self) -> u64
        ensures value { result ≡ cells self.now }
        ensures within { cells self.now ≤ 65536 * length self.now.rows }
    {
        let mut count = 0;
        for row in self.rows() {
            count += row.entries.len() as u64;
        }
        count
    }

    /// The entry of a node for a budget in ticks. None exactly where no row has that node and
    /// budget.
    pub fn entry(&self, node: u32, budget: u32) -> Option<PolicyEntry>
        ensures { result ≡ entry_of self.now node budget }
    {
        self.row(node).and_then(|row| row.entry(budget))
    }

    /// The place of the row of a node, or else where such a row would stand.
    pub fn place(&self, node: u32) -> Result<usize, usize>
        ensures within { IfOk result (λ place. place < length self.now.rows) }
        ensures found { IfOk result (λ place. find (λ row. row.node == node) self.now.rows
            ≡ slice_get self.now.rows place) }
        ensures absent { OnErr result (find (λ row. row.node == node) self.now.rows ≡ None) }
        ensures between { IfErr result (λ place. (k : ℕ) (row : PolicyRow)
            → slice_get self.now.rows k ≡ Some row
            → (k < place → row.node < node) × (place ≤ k → node < row.node)) }
        ensures end { IfErr result (λ place. place ≤ length self.now.rows) }
    {
        self.rows().binary_search_by_key(&node, |row| row.node)
    }

    fn row(&self, node: u32) -> Option<&PolicyRow>
        ensures { option_copied result ≡ find (λ row. row.node == node) self.now.rows }
    {
        match self.place(node) {
            Ok(place) => Some(&self.rows[place]),
            Err(_) => None,
        }
    }
}
