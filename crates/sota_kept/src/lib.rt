//! What tables keep of a network's grid over asks and edits: definitions, the laws that say that
//! what is kept stays right, and least times as long lists keep them.
#![tactic(auto)]

pub mod kept;
pub mod laws;
mod least_time;

pub use least_time::LeastTime;
