//! Networks that are made of the words of a seed, to try the planner on.
#![tactic(auto)]

mod arcs;
pub mod laws;
mod make;
mod times;

pub use make::{MakeFault, is_size, make_network};

#[cfg(test)]
mod tests;
