//! Trips that follow a policy on a network, with the time of each traversal drawn from the words of
//! a seed.
#![tactic(auto)]

mod ending;
mod laws;
mod moves;
mod tally;

pub use ending::Ending;
pub use laws::{certified_roads, trips_recur};
pub use moves::trip;
pub use sota_words::Words;
pub use tally::{Tally, trips};

#[cfg(test)]
mod tests;
