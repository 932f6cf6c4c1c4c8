// Networks and their views.
ghost use Rattle.std.specs.Prelude.{◌≡◌, ◌≤◌, ◌==◌, ◌↔◌, [], ◌∷◌, length, None, Some};
ghost use Rattle.std.specs.Prelude.{IfErr, IfOk, IfSome, IsSome, OnErr, OnOk};
ghost use Rattle.std.specs.List.{All};
ghost use Rattle.std.specs.Option.{option_copied, option_map};
ghost use Rattle.sota_units.specs.Limits.{NODE_LIMIT, ARC_LIMIT};
ghost use Rattle.sota_hist.specs.Time.{total};
ghost use Rattle.sota_network.specs.Network.{Net, IsNet, IsArc, IsNode, arc_at, replaced};
ghost use Rattle.sota_network.specs.Numbers.{numbers};
ghost use Rattle.sota_network.specs.Adjacency.{end_of};

use crate::adjacency::{Adjacency, End};
use sota_hist::Histogram;
use sota_units::{ArcId, NoMemory, NodeId, Scale, Tick};
use std::alloc::Global;
use std::marker::Model;

/// A one-way road from its tail to its head. A mass of its time is a chance over the network's
/// scale, and what the masses lack of the scale is the chance that a traversal never ends. A road
/// whose time is closed is never passed.
#[derive(Drop)]
pub struct Arc {
    pub tail: NodeId,
    pub head: NodeId,
    pub time: Histogram,
}

impl Arc {
    /// A road that takes the same time always: all mass of this scale stands at one tick.
    pub fn certain(
        alloc: Global,
        tail: NodeId,
        head: NodeId,
        scale: Scale,
        tick: Tick,
    ) -> Result<Arc, NoMemory>
        requires { 1 ≤ tick }
        ensures { IfOk result (λ arc. arc
            ≡ record { tail = tail; head = head; time = (tick, scale) ∷ [] }) }
    {
        let time = Histogram::certain(alloc, scale, tick)?;
        Ok(Arc { tail, head, time })
    }
}

/// No arc has the number. The histogram that was handed in is handed back.
#[derive(Drop)]
pub struct NoArc {
    pub time: Histogram,
}

/// A road network. Nodes are numbered from 1, and arcs from 1 in the order in which they were
/// handed in.
#[derive(Drop)]
pub struct Network {
    nodes: u32,
    scale: Scale,
    arcs: Vec<Arc>,
    leaving: Adjacency,
    entering: Adjacency,
}

impl Model for Network {
    ghost use Rattle.sota_network.specs.Network.{Net};
    ghost use Rattle.sota_network.specs.Adjacency.{IsIndexed};

    ghost Value = { Net };

    ghost view = { λ a. record { nodes = a.nodes; scale = a.scale; arcs = a.arcs.items } };

    ghost invariant = { λ a.
        IsIndexed (record { nodes = a.nodes; scale = a.scale; arcs = a.arcs.items })
        a.leaving a.entering };
}

impl Network {
    /// The network of its parts: nodes from 1 to 1,000,000, at most 4,000,000 arcs between them,
    /// and each arc's masses sum to at most the scale. It takes time linear in nodes and arcs.
    pub fn build(
        alloc: Global,
        nodes: u32,
        scale: Scale,
        arcs: Vec<Arc>,
    ) -> Result<Network, NoMemory>
        requires nodes { (1 ≤ nodes) × (nodes ≤ NODE_LIMIT) }
        requires arcs { length arcs.items ≤ ARC_LIMIT }
        requires valid { IsNet (record { nodes = nodes; scale = scale; arcs = arcs.items }) }
        ensures value { IfOk result (λ network. network
            ≡ record { nodes = nodes; scale = scale; arcs = arcs.items }) }
        ensures valid { IfOk result (λ network. IsNet network) }
    {
        let leaving = Adjacency::build(alloc, nodes, &arcs, End::Tail)?;
        let entering = Adjacency::build(alloc, nodes, &arcs, End::Head)?;
        Ok(Network {
            nodes,
            scale,
            arcs,
            leaving,
            entering,
        })
    }

    /// The number of nodes.
    pub fn nodes(&self) -> u32
        ensures value { result ≡ self.now.nodes }
        ensures within { (1 ≤ self.now.nodes) × (self.now.nodes ≤ NODE_LIMIT) }
        ensures valid { IsNet self.now }
    {
        self.nodes
    }

    /// The number of arcs.
    pub fn arc_count(&self) -> u32
        ensures value { result ≡ length self.now.arcs }
        ensures within { length self.now.arcs ≤ ARC_LIMIT }
    {
        self.arcs.len() as u32
    }

    /// The denominator of all masses.
    pub fn scale(&self) -> Scale
        ensures value { result ≡ self.now.scale }
        ensures valid { IsNet self.now }
    {
        self.scale
    }

    /// The arc of a number. None exactly where the number is not from 1 to the number of arcs.
    pub fn arc(&self, arc: ArcId) -> Option<&Arc>
        ensures some { IsSome result ↔ ((1 ≤ arc) × (arc ≤ length self.now.arcs)) }
        ensures value { option_copied result ≡ arc_at self.now arc }
        ensures found { IfSome result (λ arc. IsArc self.now arc.now) }
        ensures valid { IsNet self.now }
    {
        let arcs = self.arcs();
        let index = arc.get().checked_sub(1)?;
        arcs.get(index as usize)
    }

    /// The arc of a number that the network has.
    pub fn numbered(&self, arc: ArcId) -> &Arc
        requires { (1 ≤ arc) × (arc ≤ length self.now.arcs) }
        ensures value { arc_at self.now arc ≡ Some result.now }
        ensures valid { IsArc self.now result.now }
    {
        &self.arcs()[arc.get() as usize - 1]
    }

    /// All arcs: number `e` stands at index `e - 1`.
    pub fn arcs(&self) -> &[Arc]
        ensures value { result.now ≡ self.now.arcs }
        ensures within { length result.now ≤ ARC_LIMIT }
        ensures valid { IsNet self.now }
    {
        self.arcs.as_slice()
    }

    /// The numbers of the arcs that leave a node, rising.
    pub fn leaving(&self, node: NodeId) -> &[ArcId]
        requires { IsNode self.now node }
        ensures value { result.now ≡ numbers (λ arc. arc.tail == node) 1 self.now.arcs }
        ensures within { All (λ e. (1 ≤ e) × (e ≤ length self.now.arcs)) result.now }
        ensures valid { IsNet self.now }
    {
        self.arcs_with(End::Tail, node)
    }

    /// The numbers of the arcs that enter a node, rising.
    pub fn entering(&self, node: NodeId) -> &[ArcId]
        requires { IsNode self.now node }
        ensures value { result.now ≡ numbers (λ arc. arc.head == node) 1 self.now.arcs }
        ensures within { All (λ e. (1 ≤ e) × (e ≤ length self.now.arcs)) result.now }
        ensures valid { IsNet self.now }
    {
        self.arcs_with(End::Head, node)
    }

    /// The numbers of the arcs that have a node at this end, rising.
    fn arcs_with(&self, end: End, node: NodeId) -> &[ArcId]
        requires { IsNode self.now node }
        ensures value { result.now ≡ numbers (λ arc. end_of end arc == node) 1 self.now.arcs }
        ensures within { All (λ e. (1 ≤ e) × (e ≤ length self.now.arcs)) result.now }
        ensures valid { IsNet self.now }
    {
        match end {
            End::Tail => self.leaving.of_node(node),
            End::Head => self.entering.of_node(node),
        }
    }

    /// Gives an arc another time, and hands the one before back. NoArc exactly where the number is
    /// not from 1 to the number of arcs. It takes no memory.
    pub fn replace(&mut self, arc: ArcId, time: Histogram) -> Result<Histogram, NoArc>
        requires total { total time ≤ self.old.scale }
        ensures old { IfOk result (λ old.
            option_map (λ arc. arc.time) (arc_at self.old arc) ≡ Some old) }
        ensures replaced { OnOk result (self.new ≡ replaced self.old arc time) }
        ensures no_arc { IfErr result (λ refused. arc_at self.old arc ≡ None) }
        ensures handed_back { IfErr result (λ refused. refused.time ≡ time) }
        ensures unchanged { OnErr result (self.new ≡ self.old) }
        ensures valid { IsNet self.new }
    {
        let number = arc.get() as usize;
        if number == 0 || self.arcs.len() < number {
            return Err(NoArc { time });
        }
        Ok(self.arcs[number - 1].time.replace(time))
    }
}
