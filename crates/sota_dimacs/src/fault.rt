// Why a text is no graph.
ghost use Rattle.std.specs.Prelude.{◌≡◌};
ghost use Rattle.sota_dimacs.specs.Words.{fault_word, fault_place};

use sota_units::NoMemory;

/// The first fault of a text that is no graph. A fault of a line carries the line's number, counted
/// from 1.
#[derive(Clone, Copy, Debug, PartialEq, Eq)]
pub enum GraphFault {
    /// There is no problem line.
    NoProblem,
    /// A problem line stood before.
    SecondProblem(u32),
    /// The line is of no kind, or its fields are not those of its kind.
    BadLine(u32),
    /// An end of the arc is no node.
    NodeRange(u32),
    /// No problem line stood before.
    ArcBeforeProblem(u32),
    /// As many arcs as the problem line announces stood before.
    TooManyArcs(u32),
    /// This number of arcs was found, which is less than the problem line announces.
    TooFewArcs(u32),
    /// This number of nodes exceeds 1,000,000.
    TooManyNodes(u32),
    /// This number of arcs exceeds 4,000,000.
    ArcLimit(u32),
    /// Memory was wanted, and there was none. It says nothing of the text.
    NoMemory,
}

impl GraphFault {
    /// Its name, as replies print it.
    pub fn word(self) -> &'static [u8]
        ensures { result.now ≡ fault_word self }
    {
        match self {
            GraphFault::NoProblem => b"NoProblem",
            GraphFault::SecondProblem(_) => b"SecondProblem",
            GraphFault::BadLine(_) => b"BadLine",
            GraphFault::NodeRange(_) => b"NodeRange",
            GraphFault::ArcBeforeProblem(_) => b"ArcBeforeProblem",
            GraphFault::TooManyArcs(_) => b"TooManyArcs",
            GraphFault::TooFewArcs(_) => b"TooFewArcs",
            GraphFault::TooManyNodes(_) => b"TooManyNodes",
            GraphFault::ArcLimit(_) => b"ArcLimit",
            GraphFault::NoMemory => b"NoMemory",
        }
    }

    /// The number that it carries, 0 where there is none.
    pub fn place(self) -> u32
        ensures { result ≡ fault_place self }
    {
        match self {
            GraphFault::SecondProblem(line)
            | GraphFault::BadLine(line)
            | GraphFault::NodeRange(line)
            | GraphFault::ArcBeforeProblem(line)
            | GraphFault::TooManyArcs(line) => line,
            GraphFault::TooFewArcs(found) => found,
            GraphFault::TooManyNodes(nodes) => nodes,
            GraphFault::ArcLimit(arcs) => arcs,
            GraphFault::NoProblem | GraphFault::NoMemory => 0,
        }
    }
}

impl From<NoMemory> for GraphFault {
    ghost use Rattle.sota_dimacs.specs.declared.fault.GraphFault.TheVariants.{NoMemory};

    ghost from_gives = { λ _ fault. fault ≡ NoMemory };

    fn from(_: NoMemory) -> Self {
        GraphFault::NoMemory
    }
}
