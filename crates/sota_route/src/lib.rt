//! The chance of keeping to a route, a list of arcs that is followed whatever time they take.
#![tactic(auto)]

mod bracket;
mod fault;
pub mod laws;
#[cfg(test)]
mod tests;

pub use bracket::{RouteAnswer, route_bracket};
pub use fault::RouteFault;
