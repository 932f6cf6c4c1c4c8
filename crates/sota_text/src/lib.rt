//! Texts of bytes: lines, fields and numbers by their places, and text that is written piece by
//! piece.
#![tactic(auto)]

mod few_fields;
mod fields;
mod lines;
mod number;
mod span;
#[cfg(test)]
mod tests;
mod text_out;

pub use few_fields::{four_fields, three_fields};
pub use fields::Fields;
pub use lines::Lines;
pub use number::read_u32;
pub use span::{Line, Span};
pub use text_out::TextOut;
