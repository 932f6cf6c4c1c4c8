// What is asked, and in which blocks it is answered.
use crate::timed::Timed;
use sota_network::Network;
use sota_sums::Bound;
use sota_units::NodeId;

/// The values of one bound towards a destination, at the budgets in ticks from 0 up to one. Where
/// that budget ends the clock shows the deadline. Of each node the values at as many budgets as its
/// need are wanted, and `visited` are the nodes with a need besides the destination.
#[derive(Clone, Copy)]
pub(crate) struct Ask<'a> {
    pub(crate) timed: &'a Timed,
    pub(crate) dest: NodeId,
    pub(crate) budget: u32,
    pub(crate) deadline: u32,
    pub(crate) bound: Bound,
    pub(crate) needs: &'a [u32],
    pub(crate) visited: &'a [NodeId],
}

/// So many budgets in a row of an ask, from `from` on, at which this is the network.
#[derive(Clone, Copy)]
pub(crate) struct Block<'a, 'b> {
    pub(crate) ask: &'b Ask<'a>,
    pub(crate) network: &'a Network,
    pub(crate) from: usize,
    pub(crate) count: usize,
}
