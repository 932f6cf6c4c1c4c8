// A bracket in memory.
ghost use Rattle.std.specs.Prelude.{◌≡◌, ◌+◌, ◌*◌, ◌≤◌, ◌↔◌, length, IsOk, IfOk, IfErr};
ghost use Rattle.std.specs.Prelude.{IfNone, Some};
ghost use Rattle.sota_polfile.specs.Bracket.{IsBracket, bracket_cells};
ghost use Rattle.sota_polfile.specs.BracketFile.{is_part, part_fault, bracket_parts_fault};

use crate::row::RowHead;
use crate::{BracketHead, BracketRow, PolicyFault};
use sota_units::BUDGET_LIMIT;
use std::marker::Model;

/// A policy with a lower and an upper bound for each of its entries, and for each node the first
/// budget at which one can arrive. It has a row for each node, whose numbers are in their ranges.
#[derive(Drop)]
pub struct BracketTable {
    pub(crate) head: BracketHead,
    pub(crate) rows: Vec<BracketRow>,
}

impl Model for BracketTable {
    ghost use Rattle.sota_polfile.specs.Bracket.{Bracket, IsBracket};

    ghost Value = { Bracket };

    ghost view = { λ a. record { head = a.head; rows = a.rows.items } };

    ghost invariant = { λ a. IsBracket (record { head = a.head; rows = a.rows.items }) };
}

impl RowHead {
    fn is_part(self, head: &BracketHead) -> bool
        ensures { result ≡ is_part head.now self }
    {
        if self.node == head.dest && (self.first != 0 || self.count != 0) {
            return false;
        }
        if self.first > BUDGET_LIMIT + 1 {
            return false;
        }
        self.count == 0
            || self.first <= head.budget && self.count <= u64::from(head.budget - self.first) + 1
    }

    /// The fault of the numbers of this node.
    pub(crate) fn part_fault(self, head: &BracketHead) -> Option<PolicyFault>
        ensures { result ≡ part_fault head.now self }
    {
        if self.is_part(head) {
            None
        } else {
            Some(PolicyFault::Range(self.node))
        }
    }
}

/// The fault of the head, or else of the first row that has one.
fn parts_fault(head: &BracketHead, rows: &[BracketRow]) -> Option<PolicyFault>
    requires { length rows.now ≡ head.now.nodes }
    ensures value { result ≡ bracket_parts_fault head.now rows.now }
    ensures valid { IfNone result (IsBracket (record { head = head.now; rows = rows.now })) }
{
    if !head.is_in_range() {
        return Some(PolicyFault::Range(0));
    }
    let mut node = 1;
    for row in rows {
        if let Some(fault) = row.numbers(node).part_fault(head) {
            return Some(fault);
        }
        node += 1;
    }
    None
}

impl BracketTable {
    /// The table of these parts, or the fault of parts that are none: `Range` with 0 for the head,
    /// or else with the first node whose row has a number out of its range. It takes no memory.
    pub fn from_parts(head: BracketHead, rows: Vec<BracketRow>) -> Result<BracketTable, PolicyFault>
        requires { length rows.items ≡ head.nodes }
        ensures made { IfOk result (λ table. table ≡ record { head = head; rows = rows.items }) }
        ensures valid { IsOk result ↔ IsBracket (record { head = head; rows = rows.items }) }
        ensures fault { IfErr result (λ fault. bracket_parts_fault head rows.items ≡ Some fault) }
    {
        match parts_fault(&head, &rows) {
            Some(fault) => Err(fault),
            None => Ok(BracketTable { head, rows }),
        }
    }

    /// Whose table it is.
    pub fn head(&self) -> &BracketHead
        ensures value { result.now ≡ self.now.head }
        ensures valid { IsBracket self.now }
    {
        &self.head
    }

    /// The rows of the nodes from 1 on.
    pub fn rows(&self) -> &[BracketRow]
        ensures value { result.now ≡ self.now.rows }
        ensures valid { IsBracket self.now }
        ensures size { length self.now.rows ≡ self.now.head.nodes }
    {
        self.rows.as_slice()
    }

    /// The number of entries.
    #[tactic(auto, using(crate::proofs::BracketParts::cells_bound))]
    pub fn cells(&self) -> u64
        ensures value { result ≡ bracket_cells self.now }
        ensures within { bracket_cells self.now ≤ 65536 * length self.now.rows }
    {
        let mut count = 0;
        for row in self.rows() {
            count += row.entries.len() as u64;
        }
        count
    }
}
