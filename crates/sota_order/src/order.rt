// Extents of budgets, by the least known end.
ghost use Rattle.std.specs.Prelude.{◌≡◌, ◌≤◌, ◌-◌, length, IfOk, IfSome, IfNone, slice_index};
ghost use Rattle.sota_network.specs.Network.{IsNet};
ghost use Rattle.sota_order.specs.Orders.{OrderView, CanBeMet, IsReach, IsNext, AreNeedsMet};
ghost use Rattle.sota_order.specs.Orders.{bound_of};
ghost use Rattle.sota_order.specs.Orders.{with_front};

use sota_network::laws::{arcs_by_number, numbers_of_arcs};
use sota_network::{Arc, Network};
use sota_units::{NoMemory, NodeId};
use std::alloc::Global;
use std::cmp::Reverse;
use std::collections::BinaryHeap;
use std::marker::Model;

/// Budgets of a node, in ticks: from one up to but not at another.
#[derive(Clone, Copy)]
pub struct Extent {
    pub node: NodeId,
    pub from: u32,
    pub to: u32,
}

/// A node that is not known as far as it is needed, and its known end. The turn at the lesser end
/// is the greater one, since a heap hands the greatest out first.
#[derive(Clone, Copy, PartialEq, Eq, PartialOrd, Ord)]
struct Turn {
    end: Reverse<u32>,
    node: NodeId,
}

/// Which budgets of which node come next. The known end of a node is the greater of its front and
/// its base, in ticks; that of the destination is past every budget. The node with the least known
/// end comes first, since extents are longest then: of passes over the nodes in a fixed order each
/// short cycle makes extents of one tick.
#[derive(Drop)]
pub struct Order {
    dest: NodeId,
    fronts: Vec<u32>,
    bases: Vec<u32>,
    needs: Vec<u32>,
    turns: BinaryHeap<Turn>,
}

impl Model for Order {
    ghost use Rattle.std.specs.Prelude.{◌≤◌, length};
    ghost use Rattle.std.specs.BinaryHeap.{heap_items, heap_len, heap_capacity, IsHeap};
    ghost use Rattle.sota_order.specs.Orders.{OrderView};
    ghost use Rattle.sota_order.specs.Queue.{by_end, AreTurns};

    ghost Value = { OrderView };

    ghost view = { λ order. record {
      dest = order.dest;
      fronts = order.fronts.items;
      bases = order.bases.items;
      needs = order.needs.items;
    } };

    ghost invariant = { λ order.
        AreTurns (record {
          dest = order.dest;
          fronts = order.fronts.items;
          bases = order.bases.items;
          needs = order.needs.items;
        }) (length order.needs.items) (heap_items order.turns)
        × IsHeap by_end (heap_items order.turns)
        × (heap_len order.turns ≤ heap_capacity order.turns) };
}

impl Order {
    /// An order over these bases, fronts and needs: that of node `i` stands at index `i - 1`.
    pub fn new(
        alloc: Global,
        network: &Network,
        dest: NodeId,
        bases: &[u32],
        fronts: &[u32],
        needs: &[u32],
    ) -> Result<Order, NoMemory>
        requires { CanBeMet network.now (record {
          dest = dest;
          fronts = fronts.now;
          bases = bases.now;
          needs = needs.now;
        }) }
        ensures { IfOk result (λ order. order ≡ record {
          dest = dest;
          fronts = fronts.now;
          bases = bases.now;
          needs = needs.now;
        }) }
    {
        let count = network.nodes();
        let mut turns = BinaryHeap::with_capacity(alloc, count as usize)?;
        for index in 0..count as usize {
            let end = fronts[index].max(bases[index]);
            if end < needs[index] {
                let node = NodeId(index as u32 + 1);
                turns.push(Turn {
                    end: Reverse(end),
                    node,
                })?;
            }
        }
        Ok(Order {
            dest,
            fronts: fronts.to_vec(alloc)?,
            bases: bases.to_vec(alloc)?,
            needs: needs.to_vec(alloc)?,
            turns,
        })
    }

    /// The next budgets of a node that is not known as far as it is needed: from its known end as
    /// far as what its arcs read is known, and no further than its need. Its front is their end
    /// from then on. None exactly where every known end has reached its need. It takes no memory,
    /// and the time of the arcs that leave the node and of the logarithm of the nodes.
    pub fn next_extent(&mut self, network: &Network) -> Option<Extent>
        requires { CanBeMet network.now self.old }
        ensures next { IfSome result (λ extent. IsNext network.now self.old extent) }
        ensures front { IfSome result (λ extent.
            self.new ≡ with_front self.old extent.node extent.to) }
        ensures still { CanBeMet network.now self.new }
        ensures met { IfNone result (AreNeedsMet network.now self.old) }
        ensures unchanged { IfNone result (self.new ≡ self.old) }
    {
        arcs_by_number();
        let turn = self.turns.pop()?;
        let node = turn.node;
        let index = node.get() as usize - 1;
        let need = self.needs[index];
        let to = reach_of(network, self.dest, node, need, &self.fronts, &self.bases);
        self.fronts[index] = to;
        if to < need {
            let _ = self.turns.push(Turn {
                end: Reverse(to),
                node,
            });
        }
        Some(Extent {
            node,
            from: turn.end.0,
            to,
        })
    }
}

/// How far a node can be known next: up to its need, and no further than each arc leaving it lets
/// it be known.
fn reach_of(
    network: &Network,
    dest: NodeId,
    node: NodeId,
    need: u32,
    fronts: &[u32],
    bases: &[u32],
) -> u32
    requires node { (1 ≤ node) × (node ≤ network.now.nodes) }
    requires nodes { (length fronts.now ≡ network.now.nodes)
        × (length bases.now ≡ network.now.nodes) }
    ensures reach { (w : OrderView) → w.dest ≡ dest → w.fronts ≡ fronts.now → w.bases ≡ bases.now
        → slice_index w.needs (node - 1) ≡ need → IsReach network.now w node result }
    ensures valid { IsNet network.now }
{
    numbers_of_arcs();
    let mut to = need;
    for number in network.leaving(node) {
        let arc = network.numbered(*number);
        if let Some(bound) = bound_of(arc, dest, fronts, bases) {
            to = bound.min(u64::from(to)) as u32;
        }
    }
    to
}

/// How far an arc lets its tail be known: as many ticks past its head's known end as it takes at
/// least. None where it bounds nothing.
fn bound_of(arc: &Arc, dest: NodeId, fronts: &[u32], bases: &[u32]) -> Option<u64>
    requires low { 1 ≤ arc.now.head }
    requires nodes { (arc.now.head ≤ length fronts.now) × (arc.now.head ≤ length bases.now) }
    ensures { result ≡ bound_of dest fronts.now bases.now arc.now }
{
    if arc.head == dest || arc.time.is_closed() {
        return None;
    }
    let head = arc.head.get() as usize - 1;
    let end = fronts[head].max(bases[head]);
    Some(u64::from(end) + u64::from(arc.time.least().get()))
}
