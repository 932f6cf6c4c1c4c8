// Roads that take exactly their weights.
ghost use Rattle.std.specs.Prelude.{◌≤◌, length};
ghost use Rattle.sota_units.specs.Limits.{ARC_LIMIT};
ghost use Rattle.sota_units.specs.Memory.{Answers, AnswersBy};
ghost use Rattle.sota_dimacs.specs.Graph.{IsGraph};
ghost use Rattle.sota_histcsv.specs.Words.{is_shortage};
ghost use Rattle.sota_histcsv.specs.Certain.{certain_net, certain_arcs};

use crate::fault::HistFileFault;
use sota_dimacs::{RawArc, RawGraph};
use sota_hist::Histogram;
use sota_network::{Arc, Network};
use sota_units::{Scale, Tick};
use std::alloc::Global;

/// The network in which each arc takes its weight in ticks for certain, over the scale 1. ZeroTime
/// carries the least arc of weight 0, exactly where there is one; of the other faults only NoMemory
/// comes.
pub fn certain_network(alloc: Global, graph: RawGraph) -> Result<Network, HistFileFault>
    requires { IsGraph graph }
    ensures { Answers is_shortage result (certain_net graph) }
{
    let arcs = certain_arcs(alloc, graph.arcs.as_slice())?;
    drop(graph.arcs);
    Ok(Network::build(alloc, graph.nodes, Scale::ONE, arcs)?)
}

/// Each arc with all mass at its weight, where each has a positive one.
fn certain_arcs(alloc: Global, raw: &[RawArc]) -> Result<Vec<Arc>, HistFileFault>
    requires { length raw.now ≤ ARC_LIMIT }
    ensures { AnswersBy is_shortage (λ arcs. arcs.items) result (certain_arcs raw.now) }
{
    let mut arcs = Vec::new(alloc);
    if arcs.reserve(raw.len()).is_err() {
        return Err(HistFileFault::NoMemory);
    }
    for (index, arc) in raw.iter().enumerate() {
        if arc.weight == 0 {
            return Err(HistFileFault::ZeroTime(index as u32 + 1));
        }
        let Ok(time) = Histogram::certain(alloc, Scale::ONE, Tick(arc.weight)) else {
            return Err(HistFileFault::NoMemory);
        };
        let (tail, head) = (arc.tail, arc.head);
        if arcs.push(Arc { tail, head, time }).is_err() {
            return Err(HistFileFault::NoMemory);
        }
    }
    Ok(arcs)
}
