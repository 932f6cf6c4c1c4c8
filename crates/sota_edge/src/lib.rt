//! The outside as the rest of the program sees it: a desk of named files and a sink for the output,
//! with forms of both in memory. A fault is answered only where a count of faults rose in that
//! call.
#![tactic(auto)]

mod desk;
mod listed;
mod memory_desk;
mod memory_sink;
mod sink;
mod sure_desk;
mod sure_sink;

pub use desk::{Desk, LoadError, StoreError};
pub use memory_desk::MemoryDesk;
pub use memory_sink::MemorySink;
pub use sink::{Sink, SinkError, put_all};
pub use sure_desk::SureDesk;
pub use sure_sink::SureSink;

#[cfg(test)]
mod tests;
