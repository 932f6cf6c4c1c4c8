//! Rows of unequal length in one uninitialised allocation, by raw pointers.
//!
//! `cells` has each function with a pointer, a few lines under a safe signature. `region` is a
//! block that frees itself, and `bank` says where each row lies in it: both are safe code.
//!
//! That a block is freed at most once, and used only before, is proved. That it is freed is not: no
//! contract counts blocks. The right to free it can be taken apart in `cells` alone, and a test
//! makes and drops more banks than would fit.
#![tactic(auto)]

mod bank;
mod cells;
pub mod laws;
mod region;
#[cfg(test)]
mod tests;

pub use bank::RowBank;
