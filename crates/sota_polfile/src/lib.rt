//! Policy files. Version 1 has for nodes and remaining budgets the arc to take and the value that
//! it attains; version 2, the bracket files, has a lower and an upper bound for each entry.
#![tactic(auto)]

mod any;
mod bracket_entry;
mod bracket_reading;
mod bracket_row;
mod bracket_table;
mod bracket_writing;
mod entry;
mod entry_list;
mod fault;
mod head;
mod laws;
mod places;
mod reading;
mod row;
mod table;
mod writing;

pub use any::{AnyTable, read_any};
pub use bracket_entry::{BracketEntries, BracketEntry};
pub use bracket_row::BracketRow;
pub use bracket_table::BracketTable;
pub use bracket_writing::write_bracket;
pub use entry::{PolicyEntries, PolicyEntry};
pub use fault::PolicyFault;
pub use head::{BracketHead, PolicyHead};
pub use laws::{any_one_to_one, cut_fault, entries_stand_in_rows, one_to_one, rows_by_node};
pub use reading::{POLICY_LIMIT, read_policy};
pub use row::PolicyRow;
pub use table::PolicyTable;
pub use writing::write_policy;

#[cfg(test)]
mod bracket_tests;
#[cfg(test)]
mod tests;
