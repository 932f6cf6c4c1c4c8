//! How much time one must allow to be at a destination with a given chance.
#![tactic(auto)]

pub mod laws;
mod need;
mod planned;
mod quantile;
mod search;

pub use need::Need;
pub use quantile::least_budgets;

#[cfg(test)]
mod tests;
