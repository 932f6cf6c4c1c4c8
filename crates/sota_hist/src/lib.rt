//! Travel-time histograms: which ticks a road may take, and the mass of each.
#![tactic(auto)]

mod difference;
mod fault;
mod histogram;
pub mod laws;
mod pairs;
mod sorted;
#[cfg(test)]
mod tests;

pub use fault::HistFault;
pub use histogram::Histogram;
pub use sorted::total_of;
