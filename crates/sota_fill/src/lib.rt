//! Fills the entries of a node at budgets in a row, by the sums of the arcs that leave it.
#![tactic(auto)]

mod arc_map;
mod beaten;
mod bests;
mod broad;
mod certain;
mod feed;
mod fill;
pub mod laws;
mod part;
mod sources;
mod target;

pub use arc_map::ArcMap;
pub use broad::{Summers, broad_sums};
pub use feed::{feed_ones, feed_row};
pub use fill::fill_extent;
pub use part::Part;
pub use target::{Target, base_of};
