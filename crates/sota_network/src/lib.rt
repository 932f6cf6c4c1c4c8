//! Road networks with random travel times, what a decision tree on them is worth, and the plain
//! planner of the grid.
#![tactic(auto)]

mod adjacency;
mod broad;
mod choice;
mod grid;
pub mod laws;
mod network;
mod plain;

pub use broad::broad_at;
pub use choice::Choice;
pub use grid::Grid;
pub use network::{Arc, Network, NoArc};
pub use plain::plain_grid;

#[cfg(test)]
mod tests;
