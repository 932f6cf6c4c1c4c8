//! Bounds and choices of nodes, in rows that are kept from one ask to the next.
#![tactic(auto)]

pub mod laws;
mod tables;

pub use tables::Tables;

#[cfg(test)]
mod tests;
