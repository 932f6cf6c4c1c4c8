//! Asks and edits of one network. What an ask has planned is kept for the next one.
#![tactic(auto)]

mod ask;
mod bracket;
mod cut;
mod edit;
mod entries;
#[cfg(test)]
mod file_tests;
pub mod laws;
#[cfg(test)]
mod long_tests;
mod plan;
mod planned_table;
mod policy;
mod roads;
mod session;
#[cfg(test)]
mod tests;

pub use ask::{Answer, Ask};
pub use edit::EditFault;
pub use session::Session;
pub use sota_bounds::AskFault;
