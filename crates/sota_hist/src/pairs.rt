// Where the pairs of a histogram are kept. Most arcs of a large network have one pair, so one is
// kept in place, without an allocation of its own. More are kept behind one pointer, so that an arc
// of one pair does not pay for the room of a list: 16 bytes hold either.
ghost use Rattle.std.specs.Prelude.{◌≡◌, IfOk};
ghost use Rattle.sota_hist.specs.Pairs.{pairs_in};

use sota_units::{Mass, NoMemory, Tick};
use std::alloc::Global;
use std::slice;

/// A list of pairs.
#[derive(Drop)]
pub(crate) enum Pairs {
    /// No pair.
    Closed,
    /// One pair.
    One((Tick, Mass)),
    /// Any number of pairs.
    Many(Box<Vec<(Tick, Mass)>>),
}

impl Pairs {
    /// A copy of these pairs.
    pub(crate) fn from_slice(alloc: Global, pairs: &[(Tick, Mass)]) -> Result<Pairs, NoMemory>
        ensures { IfOk result (λ made. pairs_in made ≡ pairs.now) }
    {
        match pairs {
            [] => Ok(Pairs::Closed),
            [pair] => Ok(Pairs::One(*pair)),
            _ => Ok(Pairs::Many(Box::new(alloc, Vec::from_slice(alloc, pairs)?)?)),
        }
    }

    /// The pairs in order.
    pub(crate) fn as_slice(&self) -> &[(Tick, Mass)]
        ensures { result.now ≡ pairs_in self.now }
    {
        match self {
            Pairs::Closed => &[],
            Pairs::One(pair) => slice::from_ref(pair),
            Pairs::Many(pairs) => pairs.as_slice(),
        }
    }
}
