//! Judges policy files of both versions. The value that a policy names is attained on a network,
//! and the two bounds of a bracket enclose the greatest on-time probability, or else there is a
//! first entry that does not hold.
#![tactic(auto)]

mod bracket_sums;
mod bracket_verdict;
mod judge;
mod judge_bracket;
pub mod laws;
mod rows;
mod sums;
mod verdict;

pub use bracket_verdict::{BracketRejection, Bracketed};
pub use judge::check;
pub use judge_bracket::check_bracket;
pub use verdict::{Certified, Rejection};

#[cfg(test)]
mod bracket_tests;
#[cfg(test)]
mod tests;
