//! Plans of an ask: which entries are missing, and how they are filled.
#![tactic(auto)]

mod extension;
mod feeding;
mod laws;
mod met;
mod preparation;
mod run;
mod steps;
mod summers;

pub use extension::extend;
pub use met::is_met;
pub use preparation::prepare;
pub use run::Run;

#[cfg(test)]
mod tests;
