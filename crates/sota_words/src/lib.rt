//! The words of a seeded generator, and numbers drawn from them.
#![tactic(auto)]

pub mod laws;
mod words;

pub use words::Words;

#[cfg(test)]
mod tests;
