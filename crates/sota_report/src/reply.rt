// Replies to lines of a script, as their numbers and texts.
use crate::Text;
use sota_units::Grain;

/// The reply to a line of a script. Nodes and arcs are numbered from 1, budgets are in ticks.
#[derive(Drop)]
pub enum Reply {
    /// An ask was answered with two bounds, and with the arc to take first, where there is one.
    Answer {
        origin: u32,
        dest: u32,
        budget: u32,
        lower: Grain,
        upper: Grain,
        arc: Option<u32>,
    },
    /// The time of this arc was replaced.
    Edited(u32),
    /// This arc was closed.
    Closed(u32),
    /// A file was stored under this name.
    Stored(Text),
    /// The least budgets, of at most a greatest one, that may and that do give a confidence.
    Need {
        origin: u32,
        dest: u32,
        confidence: Grain,
        most: u32,
        early: Option<u32>,
        sure: Option<u32>,
    },
    /// The chance of a route of so many arcs was bracketed.
    Route {
        dest: u32,
        budget: u32,
        lower: Grain,
        upper: Grain,
        arcs: u64,
    },
    /// The line of this number was refused for a cause, which may have a number.
    Refused {
        line: u32,
        cause: Text,
        count: Option<u64>,
    },
}
