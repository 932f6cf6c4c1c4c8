// The grid of a network towards one destination, as a table.
ghost use Rattle.std.specs.Prelude.{◌≡◌, ◌≤◌};
ghost use Rattle.sota_network.specs.GridView.{place, lower_at, upper_at, choice_at};

use crate::choice::Choice;
use sota_units::{ArcId, Grain, NodeId};
use std::marker::Model;

/// The lower and upper values and the choices of all nodes towards a destination, at each budget up
/// to a last one. It takes 20 bytes a node and budget: rows of one entry a node stand one after
/// the other, by rising budget.
#[derive(Drop)]
pub struct Grid {
    pub(crate) nodes: u32,
    pub(crate) budget: u32,
    pub(crate) lower: Vec<Grain>,
    pub(crate) upper: Vec<Grain>,
    pub(crate) choices: Vec<Choice>,
}

impl Model for Grid {
    ghost use Rattle.std.specs.Prelude.{◌≡◌, ◌+◌, ◌*◌, length};
    ghost use Rattle.sota_network.specs.GridView.{GridView};

    ghost Value = { GridView };

    ghost view = { λ a. record {
      nodes = a.nodes;
      budget = a.budget;
      lower = a.lower.items;
      upper = a.upper.items;
      choices = a.choices.items;
    } };

    ghost invariant = { λ a.
        (length a.lower.items ≡ (a.budget + 1) * a.nodes)
        × (length a.upper.items ≡ (a.budget + 1) * a.nodes)
        × (length a.choices.items ≡ (a.budget + 1) * a.nodes) };
}

impl Grid {
    /// The lower value of a node at a budget in ticks.
    pub fn lower(&self, node: NodeId, budget: u32) -> Grain
        requires node { (1 ≤ node) × (node ≤ self.now.nodes) }
        requires budget { budget ≤ self.now.budget }
        ensures { result ≡ lower_at self.now node budget }
    {
        self.lower[cell(self.nodes, node, budget)]
    }

    /// The upper value of a node at a budget in ticks.
    pub fn upper(&self, node: NodeId, budget: u32) -> Grain
        requires node { (1 ≤ node) × (node ≤ self.now.nodes) }
        requires budget { budget ≤ self.now.budget }
        ensures { result ≡ upper_at self.now node budget }
    {
        self.upper[cell(self.nodes, node, budget)]
    }

    /// The arc to take from a node at a budget in ticks. None exactly where the choice is none.
    pub fn choice(&self, node: NodeId, budget: u32) -> Option<ArcId>
        requires node { (1 ≤ node) × (node ≤ self.now.nodes) }
        requires budget { budget ≤ self.now.budget }
        ensures { result ≡ choice_at self.now node budget }
    {
        self.choices[cell(self.nodes, node, budget)].get()
    }
}

/// Where the entry of a node at a budget stands in a table.
pub(crate) fn cell(nodes: u32, node: NodeId, budget: u32) -> usize
    requires { (1 ≤ node) × (node ≤ nodes) }
    ensures { result ≡ place nodes node budget }
{
    budget as usize * nodes as usize + (node.get() as usize - 1)
}
