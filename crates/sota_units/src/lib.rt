//! Typed numbers: ticks, masses, node and arc numbers, probabilities in units of ten to the minus
//! eighteenth, limits, lists as fields, and counters.
#![tactic(auto)]

mod grain;
mod heft;
mod ids;
mod items;
mod limits;
mod no_memory;
mod scale;
mod spelling;
mod steps;

pub use grain::Grain;
pub use heft::Heft;
pub use ids::{ArcId, Mass, NodeId, Tick};
pub use items::Items;
pub use limits::{ARC_LIMIT, BUDGET_LIMIT, NODE_LIMIT, SCALE_LIMIT, TEXT_LIMIT};
pub use no_memory::NoMemory;
pub use scale::Scale;
pub use spelling::{grain_text, read_grain};
pub use steps::Steps;
