//! Products of blocks of masses and table values, by whole numbers alone.
#![tactic(auto)]

mod dense;
mod eights;
mod fold;
mod lanes;
mod laws;
mod narrow;
mod pairs;
mod plain;
#[cfg(test)]
mod tests;
mod wide;

pub use dense::crossed_sums;
pub use eights::add_block;
pub use fold::{fold_products, product_fold, scratch_len};
pub use laws::{first_fold_counts, worked_coefficients};
pub use pairs::pair_sums;
pub use plain::product_plain;
