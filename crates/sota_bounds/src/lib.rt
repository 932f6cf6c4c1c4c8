//! Least times in a road network; the region of an ask, which is the nodes and budgets that can
//! matter to it; and from which budgets on an edit can matter.
#![tactic(auto)]

mod ask;
mod cells;
mod edits;
mod fault;
pub mod laws;
mod least;
mod range;
mod search;

pub use ask::{AskNeeds, AskRegion, needs_by_least, region};
pub use edits::{affected, affected_by_least};
pub use fault::{AskFault, RegionFault};
pub use least::{least_from, least_to};
pub use range::{RangeFault, check_range};

#[cfg(test)]
mod tests;
