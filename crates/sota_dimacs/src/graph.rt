// A graph as its text gives it.
use sota_units::{Items, NodeId};

/// An arc of a graph text. Its weight is a number of ticks.
#[derive(Clone, Copy, Debug, PartialEq, Eq)]
pub struct RawArc {
    pub tail: NodeId,
    pub head: NodeId,
    pub weight: u32,
}

/// A graph of a graph text: `nodes` nodes, numbered from 1, and its arcs in the order of their
/// lines. Self-loops and parallel arcs are arcs like others.
#[derive(Drop)]
pub struct RawGraph {
    pub nodes: u32,
    pub arcs: Items<RawArc>,
}
