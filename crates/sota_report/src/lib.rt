//! Names of places, and replies as JSON objects for callers in any language.
#![tactic(auto)]

mod fault;
pub mod laws;
mod line;
mod names;
mod object;
mod reply;
mod resolving;
mod start;
#[cfg(test)]
mod tests;
mod text;

pub use fault::{NamesFault, ResolveFault};
pub use names::Names;
pub use object::reply_json;
pub use reply::Reply;
pub use resolving::resolve;
pub use text::Text;
