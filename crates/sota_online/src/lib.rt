//! Online sums: the sums of a kernel of masses and a list of values that grows.
#![tactic(auto)]

mod block;
mod folded;
mod halves;
mod kernel;
pub mod laws;
mod levels;
mod plain;
mod square;
mod summer;
mod sums;
#[cfg(test)]
mod tests;
mod values;
mod workspace;

pub use block::BlockSummer;
pub use plain::PlainSummer;
pub use summer::Summer;
pub use workspace::Workspace;
