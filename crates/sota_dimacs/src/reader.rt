// One pass over the lines of a graph text.
ghost use Rattle.std.specs.Prelude.{◌≡◌, ◌≤◌, ◌++◌, None, length, option_to_list};
ghost use Rattle.std.specs.Prelude.{IfOk, IfErr, OnOk};
ghost use Rattle.std.specs.Option.{option_or};
ghost use Rattle.sota_units.specs.Limits.{TEXT_LIMIT};
ghost use Rattle.sota_units.specs.Memory.{Answers, IsFault};
ghost use Rattle.sota_dimacs.specs.Words.{is_shortage};
ghost use Rattle.sota_dimacs.specs.Lines.{line_problem, line_arc};
ghost use Rattle.sota_dimacs.specs.Graph.{line_fault, problem_line_fault, arc_line_fault};
ghost use Rattle.sota_dimacs.specs.Graph.{graph_with, graph_text, IsGraph, IsTextOf};
ghost use Rattle.sota_dimacs.specs.declared.graph.RawGraph.{RawGraph};

use crate::line::{LineKind, Problem, read_line};
use crate::{GraphFault, RawArc, RawGraph};
use sota_text::Lines;
use sota_units::{ARC_LIMIT, Items, NODE_LIMIT};
use std::alloc::Global;

// The fewest bytes of an arc line, with what ends it.
const ARC_LINE_BYTES: usize = 8;

/// What the lines so far hold: their problem, if any, and their arcs.
#[derive(Drop)]
struct Seen {
    problem: Option<Problem>,
    arcs: Vec<RawArc>,
}

/// The graph of a graph text, or the text's first fault.
///
/// The lines are those of the DIMACS shortest-path format: `p sp N M` once, then `M` lines
/// `a U V W`, with blank lines and comments (`c ..`) anywhere.
pub fn read_graph(alloc: Global, bytes: &[u8]) -> Result<RawGraph, GraphFault>
    requires { length bytes.now ≤ TEXT_LIMIT }
    ensures meaning { Answers is_shortage result (graph_text bytes.now) }
    ensures valid { IfOk result (λ graph. IsGraph graph) }
    // The same without faults: what is accepted is a graph's text, and each graph's text is
    // accepted.
    ensures accepted { IfOk result (λ graph. IsTextOf bytes.now graph) }
    ensures accepts { (graph : RawGraph) → IsTextOf bytes.now graph
        → graph_text bytes.now ≡ Ok graph }
{
    let mut seen = Seen {
        problem: None,
        arcs: Vec::new(alloc),
    };
    for line in Lines::new(bytes) {
        let kind = read_line(&bytes[line.span.from..line.span.to]);
        seen.add(line.number, kind, bytes.len() - line.span.to)?;
    }
    seen.finish()
}

impl Seen {
    /// Adds a line that so many bytes of the text follow, or answers its fault.
    fn add(&mut self, number: u32, line: LineKind, left: usize) -> Result<(), GraphFault>
        ensures fault { IfErr result (λ fault. IsFault is_shortage
            (line_fault self.old.problem (length self.old.arcs.items) number line) fault) }
        ensures none { OnOk result
            (line_fault self.old.problem (length self.old.arcs.items) number line ≡ None) }
        ensures problem { OnOk result
            (self.new.problem ≡ option_or self.old.problem (line_problem line)) }
        ensures arcs { OnOk result
            (self.new.arcs.items ≡ self.old.arcs.items ++ option_to_list (line_arc line)) }
    {
        match line {
            LineKind::Skipped => Ok(()),
            LineKind::ProblemLine(problem) => self.add_problem(number, problem, left),
            LineKind::ArcLine(arc) => self.add_arc(number, arc),
            LineKind::Unknown => Err(GraphFault::BadLine(number)),
        }
    }

    /// Adds a problem line that so many bytes of the text follow. There is room then for its arcs,
    /// though for no more than those bytes can hold.
    fn add_problem(
        &mut self,
        number: u32,
        problem: Option<Problem>,
        left: usize,
    ) -> Result<(), GraphFault>
        ensures fault { IfErr result (λ fault. IsFault is_shortage
            (problem_line_fault self.old.problem number problem) fault) }
        ensures none { OnOk result (problem_line_fault self.old.problem number problem ≡ None) }
        ensures problem { OnOk result (self.new.problem ≡ problem) }
        ensures arcs { OnOk result (self.new.arcs.items ≡ self.old.arcs.items) }
    {
        if self.problem.is_some() {
            return Err(GraphFault::SecondProblem(number));
        }
        let Some(sizes) = problem else {
            return Err(GraphFault::BadLine(number));
        };
        if sizes.nodes == 0 {
            return Err(GraphFault::BadLine(number));
        }
        if sizes.nodes > NODE_LIMIT {
            return Err(GraphFault::TooManyNodes(sizes.nodes));
        }
        if sizes.arcs > ARC_LIMIT {
            return Err(GraphFault::ArcLimit(sizes.arcs));
        }
        let most = (sizes.arcs as usize).min(left / ARC_LINE_BYTES);
        if self.arcs.reserve_exact(most).is_err() {
            return Err(GraphFault::NoMemory);
        }
        self.problem = problem;
        Ok(())
    }

    /// Adds an arc line.
    fn add_arc(&mut self, number: u32, arc: Option<RawArc>) -> Result<(), GraphFault>
        ensures fault { IfErr result (λ fault. IsFault is_shortage
            (arc_line_fault self.old.problem (length self.old.arcs.items) number arc) fault) }
        ensures none { OnOk result
            (arc_line_fault self.old.problem (length self.old.arcs.items) number arc ≡ None) }
        ensures problem { OnOk result (self.new.problem ≡ self.old.problem) }
        ensures arcs { OnOk result
            (self.new.arcs.items ≡ self.old.arcs.items ++ option_to_list arc) }
    {
        let Some(problem) = self.problem else {
            return Err(GraphFault::ArcBeforeProblem(number));
        };
        let Some(arc) = arc else {
            return Err(GraphFault::BadLine(number));
        };
        if !arc.tail.is_within(problem.nodes) || !arc.head.is_within(problem.nodes) {
            return Err(GraphFault::NodeRange(number));
        }
        if self.arcs.len() >= problem.arcs as usize {
            return Err(GraphFault::TooManyArcs(number));
        }
        if self.arcs.push(arc).is_err() {
            return Err(GraphFault::NoMemory);
        }
        Ok(())
    }

    /// The graph of the lines, where they are all.
    fn finish(self) -> Result<RawGraph, GraphFault>
        ensures { result ≡ graph_with self.problem self.arcs.items }
    {
        let Seen { problem, arcs } = self;
        let Some(problem) = problem else {
            return Err(GraphFault::NoProblem);
        };
        let found = arcs.len();
        if found < problem.arcs as usize {
            return Err(GraphFault::TooFewArcs(found as u32));
        }
        Ok(RawGraph {
            nodes: problem.nodes,
            arcs: Items::new(arcs),
        })
    }
}
