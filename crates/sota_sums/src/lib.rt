//! The plain sums of an arc at budgets in a row, made eight at a time, and the two bounds that they
//! are rounded to.
#![tactic(auto)]

mod bound;
mod sums;

pub use bound::{Bound, round};
pub use sums::{arc_sums, certain_sums};
