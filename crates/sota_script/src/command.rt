// The commands that lines of a script give.
use crate::FileName;
use sota_units::{ArcId, Grain, Items, Mass, Tick};

/// An ask as its numbers stand: an origin, a destination and a budget in ticks.
#[derive(Clone, Copy, Debug, PartialEq, Eq)]
pub struct Ask3 {
    pub origin: u32,
    pub dest: u32,
    pub budget: u32,
}

/// What a line of a script asks for.
#[derive(Drop)]
pub enum Command {
    /// The time of an arc is to be the one of these pairs, in the order of their fields.
    Edit {
        arc: ArcId,
        pairs: Items<(Tick, Mass)>,
    },
    /// An arc is to be closed.
    Close {
        arc: ArcId,
    },
    /// An ask is to be answered.
    Ask(Ask3),
    /// The policy of an ask is to be stored under a name.
    Policy {
        ask: Ask3,
        name: FileName,
    },
    /// The bracket of an ask is to be stored under a name: its policy, with bounds of each value.
    Bracket {
        ask: Ask3,
        name: FileName,
    },
    /// The chance of keeping to a route to a destination within a budget in ticks is to be
    /// bracketed.
    Route {
        dest: u32,
        budget: u32,
        arcs: Items<ArcId>,
    },
    /// The least budgets, of at most that of the ask, that give its confidence are to be found.
    Need {
        ask: Ask3,
        confidence: Grain,
    },
}
