// The network of a seed.
ghost use Rattle.std.specs.Prelude.{◌≡◌, ◌↔◌, false, IfErr, IfOk};
ghost use Rattle.sota_units.specs.Memory.{Answers};
ghost use Rattle.sota_network.specs.Network.{IsNet};
ghost use Rattle.sota_make.specs.Made.{is_size, made_or_fault, is_shortage};

use crate::arcs::made_arcs;
use crate::laws::made_networks;
use crate::times::DENOMINATOR;
use sota_network::Network;
use sota_units::{NoMemory, Scale};
use sota_words::Words;
use std::alloc::Global;

/// The most nodes.
const NODES: u32 = 10_000;

/// The most arcs.
const ARCS: u32 = 100_000;

/// The most ticks of an arc.
const SPAN: u32 = 1000;

/// The most ticks of all arcs.
const TICKS: u32 = 10_000_000;

/// Why no network was made.
#[derive(Clone, Copy, Debug, PartialEq, Eq)]
pub enum MakeFault {
    /// A number is outside its range.
    Size,
    /// Memory was wanted, and there was none.
    NoMemory,
}

impl From<NoMemory> for MakeFault {
    ghost use Rattle.sota_make.specs.declared.make.MakeFault.TheVariants.{NoMemory};

    ghost from_gives = { λ _ fault. fault ≡ NoMemory };

    fn from(_: NoMemory) -> Self {
        MakeFault::NoMemory
    }
}

/// The network of a seed: nodes from 2 to 10,000, arcs from as many to 100,000, and a span of 1 to
/// 1,000 ticks an arc, with at most 10,000,000 ticks in all. The first arcs make a ring through all
/// nodes, the others go anywhere, and each arc's masses sum to 1,000,000. Size comes exactly where
/// a number is outside its range.
#[tactic(auto, using(crate::proofs::Valid::sized))]
pub fn make_network(
    alloc: Global,
    seed: u64,
    nodes: u32,
    arcs: u32,
    span: u32,
) -> Result<Network, MakeFault>
    ensures exact { Answers is_shortage result (made_or_fault seed nodes arcs span) }
    ensures size { IfErr result (λ fault. (fault ≡ MakeFault.Size)
        ↔ (is_size nodes arcs span ≡ false)) }
    ensures valid { IfOk result (λ network. IsNet network) }
{
    if !is_size(nodes, arcs, span) {
        return Err(MakeFault::Size);
    }
    made_networks();
    let list = made_arcs(alloc, &mut Words::new(seed), nodes, arcs, span)?;
    let scale = Scale::new(DENOMINATOR).unwrap();
    Ok(Network::build(alloc, nodes, scale, list)?)
}

/// Whether numbers of nodes and arcs and a span are in their ranges, so that a network is made of
/// them.
pub fn is_size(nodes: u32, arcs: u32, span: u32) -> bool
    ensures { result ≡ is_size nodes arcs span }
{
    (2..=NODES).contains(&nodes)
        && (nodes..=ARCS).contains(&arcs)
        && (1..=SPAN).contains(&span)
        && arcs * span <= TICKS
}
