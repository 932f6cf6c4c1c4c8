// The result of a judgement of a bracket table.
ghost use Rattle.std.specs.Prelude.{◌≡◌};
ghost use Rattle.sota_check.specs.Words.{bracket_word, bracket_node, bracket_budget};

use sota_units::{Grain, NodeId};

/// A bracket holds: the two bounds enclose the greatest probability of arriving in time from the
/// origin with the whole budget.
#[derive(Clone, Copy, Debug, PartialEq, Eq)]
pub struct Bracketed {
    pub origin: NodeId,
    pub dest: NodeId,
    /// In ticks.
    pub budget: u32,
    /// In units of ten to the minus eighteenth: who follows the table attains it.
    pub lower: Grain,
    /// In units of ten to the minus eighteenth: nobody exceeds it.
    pub upper: Grain,
}

/// Why a bracket table is not accepted. Size and Scale come first, then the first budgets, and then
/// the first entry in file order that does not hold, by its node and budget.
#[derive(Clone, Copy, Debug, PartialEq, Eq)]
pub enum BracketRejection {
    /// The numbers of nodes differ.
    Size,
    /// The denominators differ.
    Scale,
    /// The least node that an open arc leaves at which the first budget falls by more than the
    /// arc's least tick.
    Potential(u32),
    /// No arc has the entry's number.
    NoArc(u32, u32),
    /// The entry's arc does not leave its node.
    WrongTail(u32, u32),
    /// The entry's lower value is more than its arc is worth.
    Lower(u32, u32),
    /// An arc from the entry's node is worth more than its upper value.
    Upper(u32, u32),
}

impl BracketRejection {
    /// Its name, as replies print it.
    pub fn word(self) -> &'static [u8]
        ensures { result.now ≡ bracket_word self }
    {
        match self {
            BracketRejection::Size => b"Size",
            BracketRejection::Scale => b"Scale",
            BracketRejection::Potential(_) => b"Potential",
            BracketRejection::NoArc(_, _) => b"NoArc",
            BracketRejection::WrongTail(_, _) => b"WrongTail",
            BracketRejection::Lower(_, _) => b"Lower",
            BracketRejection::Upper(_, _) => b"Upper",
        }
    }

    /// The node that it is about. None where no node was looked at.
    pub fn node(self) -> Option<u32>
        ensures { result ≡ bracket_node self }
    {
        match self {
            BracketRejection::Size | BracketRejection::Scale => None,
            BracketRejection::Potential(node)
            | BracketRejection::NoArc(node, _)
            | BracketRejection::WrongTail(node, _)
            | BracketRejection::Lower(node, _)
            | BracketRejection::Upper(node, _) => Some(node),
        }
    }

    /// The budget of the entry that it is about, in ticks. None where no entry was looked at.
    pub fn budget(self) -> Option<u32>
        ensures { result ≡ bracket_budget self }
    {
        match self {
            BracketRejection::Size | BracketRejection::Scale | BracketRejection::Potential(_) =>
                None,
            BracketRejection::NoArc(_, budget)
            | BracketRejection::WrongTail(_, budget)
            | BracketRejection::Lower(_, budget)
            | BracketRejection::Upper(_, budget) => Some(budget),
        }
    }
}
