// The summers of broad arcs.
ghost use Rattle.std.specs.Prelude.{ℕ, ◌≡◌, ◌≢◌, ◌≤◌, length, IfOk, OnOk, false};
ghost use Rattle.std.specs.Prelude.{None, Some};
ghost use Rattle.std.specs.List.{All};
ghost use Rattle.sota_hist.specs.Time.{is_closed};
ghost use Rattle.sota_network.specs.Network.{IsNode, arc_at};
ghost use Rattle.sota_bounds.specs.Cells.{pairs_by_need, pairs_by_lists};
ghost use Rattle.sota_kept.specs.Ticks.{END_LIMIT};
ghost use Rattle.sota_kept.specs.NodeTables.{known_end};
ghost use Rattle.sota_tables.specs.Views.{HasNode, table_at};
ghost use Rattle.sota_plan.specs.Steps.{base_by};
ghost use Rattle.sota_plan.specs.Runs.{FitsIn, kernel_places, states_of, states_at};
ghost use Rattle.sota_plan.specs.Runs.{first_position, made_sums};

use sota_bounds::AskRegion;
use sota_fill::{ArcMap, Summers, base_of};
use sota_kept::LeastTime;
use sota_network::laws::{arcs_by_number, numbers_of_arcs};
use sota_network::{Arc, Network};
use sota_online::Summer;
use sota_tables::Tables;
use sota_units::{NoMemory, NodeId, Tick};
use std::alloc::Global;

/// An arc with more ticks than these within the budget is broad.
const NARROW: usize = 32;

/// The number of pairs of a node in a region, by its least time to the destination and its need.
fn pairs_of(time: LeastTime, need: u32) -> u32
    ensures value { result ≡ pairs_by_need time need }
    ensures within { result ≤ need }
{
    match time.get() {
        Some(time) => u64::from(need).saturating_sub(time) as u32,
        None => 0,
    }
}

/// The number of pairs of an arc's tail in a region.
fn pairs_at_tail(region: &AskRegion, arc: &Arc) -> u32
    requires tail { (1 ≤ arc.now.tail) × (arc.now.tail ≤ length region.now.need) }
    requires nodes { length region.now.least ≡ length region.now.need }
    requires needs { All (λ need. need ≤ END_LIMIT) region.now.need }
    ensures value { result ≡ pairs_by_lists region.now.least region.now.need arc.now.tail }
    ensures within { result ≤ END_LIMIT }
{
    let tail = arc.tail.get() as usize - 1;
    pairs_of(region.least.as_slice()[tail], region.need.as_slice()[tail])
}

/// The base of a node by the least times of all.
fn base_at(least: &[LeastTime], node: NodeId) -> u32
    requires { (1 ≤ node) × (node ≤ length least.now) }
    ensures { result ≡ base_by least.now node }
{
    base_of(least[node.get() as usize - 1])
}

/// Where the entries of a node end that are known.
fn end_of(tables: &Tables, node: NodeId) -> u32
    requires { HasNode tables.now node }
    ensures value { result ≡ known_end (table_at tables.now node) }
    ensures within { result ≤ END_LIMIT }
{
    tables.front(node).max(tables.base(node))
}

/// The position of the sum that belongs to the first entry that the tail of an open arc lacks.
fn position_of(tables: &Tables, region: &AskRegion, arc: &Arc) -> u32
    requires open { is_closed arc.now.time ≡ false }
    requires tail { HasNode tables.now arc.now.tail }
    requires head { (1 ≤ arc.now.head) × (arc.now.head ≤ length region.now.least) }
    ensures { result ≡ first_position tables.now region.now arc.now }
{
    let base = base_at(region.least.as_slice(), arc.head);
    let next = end_of(tables, arc.tail) + 1;
    next.saturating_sub(base)
        .saturating_sub(arc.time.least().get())
}

/// Two summers of an arc where it is broad, with room for as many values as its tail has pairs in
/// the region, else none. Their sums are read from the first entry on that the tail lacks.
fn summers_of<Z: Summer>(
    alloc: Global,
    tables: &Tables,
    region: &AskRegion,
    arc: &Arc,
) -> Result<Option<Summers<Z>>, NoMemory>
    requires tail { HasNode tables.now arc.now.tail }
    requires fronts { length tables.now.fronts ≡ length region.now.need }
    requires nodes { length region.now.least ≡ length region.now.need }
    requires needs { All (λ need. need ≤ END_LIMIT) region.now.need }
    requires head { (1 ≤ arc.now.head) × (arc.now.head ≤ length region.now.least) }
    ensures { IfOk result (λ found.
        states_of Z.state found ≡ made_sums tables.now region.now arc.now) }
{
    let pairs = pairs_at_tail(region, arc);
    if pairs == 0 || arc.time.within(Tick(region.budget)).len() <= NARROW {
        return Ok(None);
    }
    let start = position_of(tables, region, arc);
    let lower = Z::make(alloc, &arc.time, pairs, start)?;
    let upper = Z::make(alloc, &arc.time, pairs, start)?;
    Ok(Some(Summers { lower, upper }))
}

/// How long the kernel of two summers is, 0 where there are none.
fn places_of<Z: Summer>(found: &Option<Summers<Z>>) -> u32
    ensures { result ≡ kernel_places (states_of Z.state found.now) }
{
    match found {
        Some(two) => two.lower.span(),
        None => 0,
    }
}

/// Makes the summers of the arcs that leave a node, none of which has summers. Gives how long the
/// longest kernel of these is.
fn make_leaving<Z: Summer>(
    alloc: Global,
    network: &Network,
    tables: &Tables,
    region: &AskRegion,
    node: NodeId,
    broad: &mut ArcMap<Summers<Z>>,
) -> Result<u32, NoMemory>
    requires node { IsNode network.now node }
    requires fronts { length tables.now.fronts ≡ network.now.nodes }
    requires least { length region.now.least ≡ network.now.nodes }
    requires need { length region.now.need ≡ network.now.nodes }
    requires needs { All (λ need. need ≤ END_LIMIT) region.now.need }
    requires broad { length broad.old ≡ length network.now.arcs }
    requires none { (e : ℕ) (arc : Arc) → arc_at network.now e ≡ Some arc → arc.tail ≡ node
        → states_at Z.state broad.old e ≡ None }
    ensures sums { OnOk result ((e : ℕ) (arc : Arc) → arc_at network.now e ≡ Some arc
        → arc.tail ≡ node → states_at Z.state broad.new e ≡ made_sums tables.now region.now arc) }
    ensures others { OnOk result ((e : ℕ) (arc : Arc) → arc_at network.now e ≡ Some arc
        → arc.tail ≢ node → states_at Z.state broad.new e ≡ states_at Z.state broad.old e) }
    ensures places { IfOk result (λ places. (e : ℕ) (arc : Arc) → arc_at network.now e ≡ Some arc
        → arc.tail ≡ node → FitsIn region.now places arc) }
    ensures within { IfOk result (λ places. places ≤ END_LIMIT) }
    ensures length { length broad.new ≡ length broad.old }
{
    numbers_of_arcs();
    let mut places = 0;
    for number in network.leaving(node) {
        let made = summers_of(alloc, tables, region, network.numbered(*number))?;
        places = places_of(&made).max(places);
        broad.put(alloc, *number, made)?;
    }
    Ok(places)
}

/// The summers of all arcs, and how long their longest kernel is. Of a node without a need no arc
/// is looked at: it has no pair.
pub(crate) fn make_summers<Z: Summer>(
    alloc: Global,
    network: &Network,
    tables: &Tables,
    region: &AskRegion,
) -> Result<(ArcMap<Summers<Z>>, u32), NoMemory>
    requires fronts { length tables.now.fronts ≡ network.now.nodes }
    requires least { length region.now.least ≡ network.now.nodes }
    requires need { length region.now.need ≡ network.now.nodes }
    requires needs { All (λ need. need ≤ END_LIMIT) region.now.need }
    ensures arcs { IfOk result (λ made. length made.0 ≡ length network.now.arcs) }
    ensures sums { IfOk result (λ made. (e : ℕ) (arc : Arc) → arc_at network.now e ≡ Some arc
        → states_at Z.state made.0 e ≡ made_sums tables.now region.now arc) }
    ensures places { IfOk result (λ made. (e : ℕ) (arc : Arc) → arc_at network.now e ≡ Some arc
        → FitsIn region.now made.1 arc) }
    ensures within { IfOk result (λ made. made.1 ≤ END_LIMIT) }
{
    arcs_by_number();
    let needs = region.need.as_slice();
    let mut broad = ArcMap::new(alloc, network.arc_count())?;
    let mut places = 0;
    for index in 0..network.nodes() {
        if needs[index as usize] > 0 {
            let node = NodeId(index + 1);
            places = make_leaving(alloc, network, tables, region, node, &mut broad)?.max(places);
        }
    }
    Ok((broad, places))
}
