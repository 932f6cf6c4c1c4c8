//! In which order the entries of nodes can be filled, so that each reads known entries alone. An
//! arc lets its tail be known as many ticks past its head as it takes at least (Samaranayake,
//! Blandin and Bayen 2012).
#![tactic(auto)]

pub mod laws;
mod order;

pub use order::{Extent, Order};

#[cfg(test)]
mod tests;
