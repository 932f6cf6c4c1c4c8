//! The network of a road graph and its travel-time histograms.
#![tactic(auto)]

mod certain;
mod entry;
mod fault;
mod histograms;
pub mod laws;
mod records;
mod repeats;
mod table;
mod times;

pub use certain::certain_network;
pub use fault::HistFileFault;
pub use histograms::read_histograms;

#[cfg(test)]
mod tests;
