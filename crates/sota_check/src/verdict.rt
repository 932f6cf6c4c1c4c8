// The result of a judgement.
ghost use Rattle.std.specs.Prelude.{◌≡◌};
ghost use Rattle.sota_check.specs.Words.{cause_word, cause_entry};

use sota_units::{Grain, NodeId};

/// A policy attains its value: who follows it from the origin with the whole budget arrives in time
/// with at least the lower probability.
#[derive(Clone, Copy, Debug, PartialEq, Eq)]
pub struct Certified {
    pub origin: NodeId,
    pub dest: NodeId,
    /// In ticks.
    pub budget: u32,
    /// In units of ten to the minus eighteenth.
    pub lower: Grain,
}

/// Why a policy is not accepted. Size and Scale come first, and then the first entry in file order
/// that does not hold, by its node and budget.
#[derive(Clone, Copy, Debug, PartialEq, Eq)]
pub enum Rejection {
    /// The numbers of nodes differ.
    Size,
    /// The denominators differ.
    Scale,
    /// No arc has the entry's number.
    NoArc(u32, u32),
    /// The entry's arc does not leave its node.
    WrongTail(u32, u32),
    /// The entry's value is more than its arc is worth.
    Value(u32, u32),
}

impl Rejection {
    /// Its name, as replies print it.
    pub fn word(self) -> &'static [u8]
        ensures { result.now ≡ cause_word self }
    {
        match self {
            Rejection::Size => b"Size",
            Rejection::Scale => b"Scale",
            Rejection::NoArc(_, _) => b"NoArc",
            Rejection::WrongTail(_, _) => b"WrongTail",
            Rejection::Value(_, _) => b"Value",
        }
    }

    /// The node and the budget of the entry that does not hold. None where no entry was looked at.
    pub fn entry(self) -> Option<(u32, u32)>
        ensures { result ≡ cause_entry self }
    {
        match self {
            Rejection::Size | Rejection::Scale => None,
            Rejection::NoArc(node, budget)
            | Rejection::WrongTail(node, budget)
            | Rejection::Value(node, budget) => Some((node, budget)),
        }
    }
}
