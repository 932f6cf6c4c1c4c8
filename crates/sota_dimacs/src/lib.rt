//! Graph texts in the DIMACS shortest-path format.
#![tactic(auto)]

mod fault;
mod graph;
pub mod laws;
mod line;
mod reader;
#[cfg(test)]
mod tests;

pub use fault::GraphFault;
pub use graph::{RawArc, RawGraph};
pub use reader::read_graph;
