//! Scripts: the command of a line.
#![tactic(auto)]

mod command;
mod fault;
pub mod laws;
mod line;
mod name;
#[cfg(test)]
mod tests;

pub use command::{Ask3, Command};
pub use fault::LineFault;
pub use line::{begins_comment, read_line};
pub use name::FileName;
