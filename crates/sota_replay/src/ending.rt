/// How a trip ends.
#[derive(Clone, Copy, Debug, PartialEq, Eq)]
pub enum Ending {
    /// It reached the destination after so many ticks, within the budget.
    Arrived(u32),
    /// A traversal took more ticks than were left.
    Late,
    /// The policy has no arc for the node and the ticks that were left.
    NoChoice,
    /// A traversal never ended.
    Lost,
}
