// Plain numbers with names of their own.
ghost use Rattle.std.specs.Prelude.{ℕ, ◌≡◌};
ghost use Rattle.sota_units.specs.Ids.{is_node_number};

use std::marker::Model;

/// A number of ticks, the unit of time. A histogram's ticks are at least 1.
#[derive(Clone, Copy, Debug, Default, PartialEq, Eq, PartialOrd, Ord)]
pub struct Tick(pub u32);

impl Model for Tick {
    ghost Value = { ℕ };

    ghost view = { λ a. a.0 };

    ghost inverse = { λ n. record { 0 = n } };
}

impl Tick {
    /// The plain number.
    pub fn get(self) -> u32
        ensures { result ≡ self }
    {
        self.0
    }
}

/// A part of a histogram's total: the chance of a tick, over the network's scale `Q`.
#[derive(Clone, Copy, Debug, Default, PartialEq, Eq, PartialOrd, Ord)]
pub struct Mass(pub u32);

impl Model for Mass {
    ghost Value = { ℕ };

    ghost view = { λ a. a.0 };

    ghost inverse = { λ n. record { 0 = n } };
}

impl Mass {
    /// The plain number.
    pub fn get(self) -> u32
        ensures { result ≡ self }
    {
        self.0
    }
}

/// The number of a node, from 1.
#[derive(Clone, Copy, Debug, PartialEq, Eq, PartialOrd, Ord)]
pub struct NodeId(pub u32);

impl Model for NodeId {
    ghost Value = { ℕ };

    ghost view = { λ a. a.0 };

    ghost inverse = { λ n. record { 0 = n } };
}

impl NodeId {
    /// The plain number.
    pub fn get(self) -> u32
        ensures { result ≡ self }
    {
        self.0
    }

    /// Whether it is the number of one of so many nodes.
    pub fn is_within(self, nodes: u32) -> bool
        ensures { result ≡ is_node_number nodes self }
    {
        1 <= self.0 && self.0 <= nodes
    }
}

/// The number of an arc, from 1 in the order of the arcs' lines.
#[derive(Clone, Copy, Debug, PartialEq, Eq, PartialOrd, Ord)]
pub struct ArcId(pub u32);

impl Model for ArcId {
    ghost Value = { ℕ };

    ghost view = { λ a. a.0 };

    ghost inverse = { λ n. record { 0 = n } };
}

impl ArcId {
    /// The plain number.
    pub fn get(self) -> u32
        ensures { result ≡ self }
    {
        self.0
    }
}
