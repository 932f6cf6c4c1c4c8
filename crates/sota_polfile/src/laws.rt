// Policy files and tables are one to one, and no part of a file from its front on is a file.
ghost use Rattle.std.specs.Prelude.{◌≡◌, ◌≢◌, ◌==◌, ◌+◌, ◌-◌, ◌<◌, ◌≤◌, ℕ, List, All, length};
ghost use Rattle.std.specs.Prelude.{slice_get, take, Some, None, Ok};
ghost use Rattle.std.specs.List.{find};
ghost use Rattle.sota_polfile.specs.Table.{Table, IsTable, entry_of};
ghost use Rattle.sota_polfile.specs.declared.entry.PolicyEntry.{PolicyEntry};
ghost use Rattle.sota_polfile.specs.declared.row.PolicyRow.{PolicyRow};
ghost use Rattle.sota_polfile.specs.Spelling.{spelling, file_len};
ghost use Rattle.sota_polfile.specs.declared.any.AnyTable.{AnyTable};
ghost use Rattle.sota_polfile.specs.BracketFile.{IsAny, any_spelling, any_of};
ghost use Rattle.sota_polfile.specs.Faults.{first_fault, policy_of, cut_of};

use crate::{PolicyFault, PolicyTable};

/// Entry `j` of a row is the entry of the row's node for the budget that is `j` more than the row's
/// first, and each entry stands so.
pub fn entries_stand_in_rows()
    ensures there { (table : Table) (k j : ℕ) (row : PolicyRow) (entry : PolicyEntry)
        → IsTable table → slice_get table.rows k ≡ Some row → slice_get row.entries j ≡ Some entry
        → entry_of table row.node (row.first + j) ≡ Some entry }
    ensures only { (table : Table) (i t : ℕ) (entry : PolicyEntry) → entry_of table i t ≡ Some entry
        → (k : ℕ) × (row : PolicyRow) × (j : ℕ) × (slice_get table.rows k ≡ Some row)
        × (row.node ≡ i) × (t ≡ row.first + j) × (slice_get row.entries j ≡ Some entry) }
{}

/// A row is found by its node. No row has a node that is greater than that of the row before a
/// place and less than that of the row at it.
pub fn rows_by_node()
    ensures found { (table : Table) (k : ℕ) (row : PolicyRow) → IsTable table
        → slice_get table.rows k ≡ Some row
        → find (λ other. other.node == row.node) table.rows ≡ Some row }
    ensures absent { (table : Table) (k node : ℕ) → IsTable table → k ≤ length table.rows
        → ((row : PolicyRow) → 1 ≤ k → slice_get table.rows (k - 1) ≡ Some row → row.node < node)
        → ((row : PolicyRow) → slice_get table.rows k ≡ Some row → node < row.node)
        → find (λ row. row.node == node) table.rows ≡ None }
{}

/// Each table is what its spelling means, so tables differ in their files; and bytes that mean a
/// table are its spelling, so each list of bytes is the file of one table or has a first fault.
pub fn one_to_one()
    ensures again { (table : Table) → IsTable table → policy_of (spelling table) ≡ Ok table }
    ensures whole { (bytes : List ℕ) (table : Table) → All (λ byte. byte < 256) bytes
        → policy_of bytes ≡ Ok table → IsTable table × (bytes ≡ spelling table) }
{}

/// The same of tables of either version.
pub fn any_one_to_one()
    ensures again { (table : AnyTable) → IsAny table → any_of (any_spelling table) ≡ Ok table }
    ensures whole { (bytes : List ℕ) (table : AnyTable) → All (λ byte. byte < 256) bytes
        → any_of bytes ≡ Ok table → IsAny table × (bytes ≡ any_spelling table) }
{}

/// The fault of the first `length` bytes of the table's policy file, where the file is longer. It
/// takes no memory.
pub fn cut_fault(table: &PolicyTable, length: u64) -> PolicyFault
    requires { length < file_len table.now }
    ensures value { result ≡ cut_of length }
    ensures first { first_fault (take length (spelling table.now)) ≡ Some result }
    // So no part of a policy file from its front on is a policy file.
    ensures no_file { (other : Table) → IsTable other
        → take length (spelling table.now) ≢ spelling other }
{
    // A check knows what holds of every table once this one is read.
    prove!(table.head().nodes >= 1);
    cut(length)
}

fn cut(length: u64) -> PolicyFault
    ensures { result ≡ cut_of length }
{
    if length < 8 {
        PolicyFault::Magic
    } else if length < 32 {
        PolicyFault::Truncated(0)
    } else {
        PolicyFault::Truncated(32 + 12 * ((length - 32) / 12))
    }
}
