// Asks and their answers.
use sota_units::{ArcId, Grain, NodeId};

/// How likely can one who stands at the origin be at the destination within the budget, in ticks?
#[derive(Clone, Copy, Debug, PartialEq, Eq)]
pub struct Ask {
    pub origin: NodeId,
    pub dest: NodeId,
    pub budget: u32,
}

/// Two bounds of the on-time probability, and the arc to take first, if any.
#[derive(Clone, Copy, Debug, PartialEq, Eq)]
pub struct Answer {
    pub lower: Grain,
    pub upper: Grain,
    pub next: Option<ArcId>,
}
