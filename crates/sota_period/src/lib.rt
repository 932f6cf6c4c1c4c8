//! Departure periods: planning where the travel times of roads depend on the clock.
#![tactic(auto)]

mod ask;
mod bests;
mod blocks;
mod broad;
mod cells;
mod fault;
pub mod laws;
mod needs;
mod part;
mod plan;
mod rows;
mod table;
#[cfg(test)]
mod tests;
mod timed;

pub use fault::TimedFault;
pub use plan::{TimedAnswer, plan_timed};
pub use timed::{ScaleDiffers, Timed};
