// The judgement of a bracket table.
ghost use Rattle.std.specs.Prelude.{◌≡◌, ◌*◌, ◌^◌, ◌≤◌, ◌↔◌, min, IsOk, IfOk, IfErr, OnOk};
ghost use Rattle.std.specs.Prelude.{Some, None};
ghost use Rattle.std.specs.Option.{option_map, option_map_or};
ghost use Rattle.std.specs.List.{list_any};
ghost use Rattle.sota_units.specs.Rounding.{ONE};
ghost use Rattle.sota_network.specs.Network.{IsNet, IsNode};
ghost use Rattle.sota_network.specs.Trees.{Fits, follow, score, Encloses};
ghost use Rattle.sota_polfile.specs.Bracket.{IsBracket, bracket_row_of, bracket_entry_of};
ghost use Rattle.sota_check.specs.Bracketed.{lower, upper, lower_entry, bracket_rule, IsBracketed};
ghost use Rattle.sota_check.specs.Bracketed.{first_at};
ghost use Rattle.sota_check.specs.Rejected.{entry_fault, first_cause};
ghost use Rattle.sota_check.specs.BracketRejected.{is_steep, steep_node, of_lower, exceeds};
ghost use Rattle.sota_check.specs.BracketRejected.{bracket_entry_fault, bracket_row_rejection};
ghost use Rattle.sota_check.specs.BracketRejected.{bracket_rejection};

use crate::bracket_sums::{Side, side_in, side_sum};
use crate::laws::bracketed_encloses;
use crate::sums::needed;
use crate::{BracketRejection, Bracketed};
use sota_network::laws::{arcs_by_number, numbers_of_arcs, sums_and_scores};
use sota_network::{Arc, Network};
use sota_polfile::{BracketEntry, BracketRow, BracketTable};
use sota_units::{ArcId, Grain, NodeId};

/// Whether a bracket table holds on a network, whoever made it: its arcs keep its lower bounds up,
/// none arrives below its first budgets, and no arc exceeds its upper bounds. A table that holds
/// encloses the greatest on-time probability of its ask, and one that encloses it can still be
/// rejected. It takes no memory. An entry costs the pairs of each arc from its node within its
/// budget.
pub fn check_bracket(network: &Network, table: &BracketTable) -> Result<Bracketed, BracketRejection>
    ensures bracketed { IsOk result ↔ IsBracketed network.now table.now }
    ensures first { IfErr result (λ cause. bracket_rejection network.now table.now ≡ Some cause) }
    ensures passed { OnOk result (bracket_rejection network.now table.now ≡ None) }
    ensures ask { IfOk result (λ b. (b.origin ≡ table.now.head.origin)
        × (b.dest ≡ table.now.head.dest) × (b.budget ≡ table.now.head.budget)) }
    ensures lower { IfOk result (λ b. b.lower ≡ lower table.now b.origin b.budget) }
    ensures upper { IfOk result (λ b. b.upper ≡ upper table.now b.origin b.budget) }

    // No decision tree exceeds the upper bound, and one attains the lower.
    ensures encloses { IfOk result (λ b.
        Encloses network.now b.dest b.origin b.budget b.lower b.upper) }

    // Who follows the arcs of the file from the origin attains the lower bound.
    ensures fits { IfOk result (λ b. Fits network.now b.origin
        (follow network.now (bracket_rule table.now) b.dest b.origin b.budget)) }
    ensures attained { IfOk result (λ b. b.lower * network.now.scale ^ b.budget
        ≤ ONE * score network.now b.dest b.origin b.budget
        (follow network.now (bracket_rule table.now) b.dest b.origin b.budget)) }
{
    let head = table.head();
    if head.nodes != network.nodes() {
        return Err(BracketRejection::Size);
    }
    if head.scale != network.scale().get() {
        return Err(BracketRejection::Scale);
    }
    if let Some(node) = steep_node(network, table) {
        return Err(BracketRejection::Potential(node));
    }
    match first_fault(network, table) {
        Some(cause) => Err(cause),
        None => Ok(bracketed(network, table)),
    }
}

/// The bounds of a table that holds.
fn bracketed(network: &Network, table: &BracketTable) -> Bracketed
    requires valid { IsNet network.now }
    requires table { IsBracket table.now }
    requires bracketed { IsBracketed network.now table.now }
    ensures ask { (result.origin ≡ table.now.head.origin)
        × (result.dest ≡ table.now.head.dest) × (result.budget ≡ table.now.head.budget) }
    ensures lower { result.lower ≡ lower table.now result.origin result.budget }
    ensures upper { result.upper ≡ upper table.now result.origin result.budget }
    ensures encloses { Encloses network.now result.dest result.origin result.budget
        result.lower result.upper }
    ensures fits { Fits network.now result.origin
        (follow network.now (bracket_rule table.now) result.dest result.origin result.budget) }
    ensures attained { result.lower * network.now.scale ^ result.budget
        ≤ ONE * score network.now result.dest result.origin result.budget
        (follow network.now (bracket_rule table.now) result.dest result.origin result.budget) }
{
    bracketed_encloses();
    let head = table.head();
    let (lower, upper) = named_values(table);
    Bracketed {
        origin: NodeId(head.origin),
        dest: NodeId(head.dest),
        budget: head.budget,
        lower: Grain::new(lower).unwrap(),
        upper: Grain::new(upper).unwrap(),
    }
}

/// Both values at the origin and the whole budget.
fn named_values(table: &BracketTable) -> (u64, u64)
    ensures lower { result.0 ≡ lower table.now table.now.head.origin table.now.head.budget }
    ensures upper { result.1 ≡ upper table.now table.now.head.origin table.now.head.budget }
{
    let head = table.head();
    if head.origin == head.dest {
        return (Grain::ONE.get(), Grain::ONE.get());
    }
    let row = &table.rows()[head.origin as usize - 1];
    let lower = side_in(row, Side::Lower, head.budget);
    let upper = side_in(row, Side::Upper, head.budget);
    (lower, upper)
}

/// The least node that an open arc leaves at which the first budget falls by more than its least
/// tick.
fn steep_node(network: &Network, table: &BracketTable) -> Option<u32>
    requires { table.now.head.nodes ≡ network.now.nodes }
    ensures { result ≡ steep_node network.now table.now }
{
    let mut least = None;
    for arc in network.arcs() {
        if is_steep(table, arc) {
            least = Some(lesser(least, arc.tail.get()));
        }
    }
    least
}

fn lesser(least: Option<u32>, node: u32) -> u32
    ensures { result ≡ option_map_or (λ other. min other node) least node }
{
    match least {
        Some(other) => other.min(node),
        None => node,
    }
}

fn is_steep(table: &BracketTable, arc: &Arc) -> bool
    requires tail { (1 ≤ arc.now.tail) × (arc.now.tail ≤ table.now.head.nodes) }
    requires head { (1 ≤ arc.now.head) × (arc.now.head ≤ table.now.head.nodes) }
    ensures { result ≡ is_steep table.now arc.now }
{
    if arc.tail.get() == table.head().dest || arc.time.is_closed() {
        return false;
    }
    let end = u64::from(first_at(table, arc.head)) + u64::from(arc.time.least().get());
    end < u64::from(first_at(table, arc.tail))
}

fn first_at(table: &BracketTable, node: NodeId) -> u32
    requires { (1 ≤ node) × (node ≤ table.now.head.nodes) }
    ensures { result ≡ first_at table.now node }
{
    table.rows()[node.get() as usize - 1].first
}

/// The first entry in file order that does not hold.
fn first_fault(network: &Network, table: &BracketTable) -> Option<BracketRejection>
    requires { table.now.head.nodes ≡ network.now.nodes }
    ensures { result ≡ first_cause (bracket_row_rejection network.now table.now) 1 table.now.rows }
{
    for (index, row) in table.rows().iter().enumerate() {
        if let Some(fault) = row_fault(network, table, index as u32 + 1, row) {
            return Some(fault);
        }
    }
    None
}

/// The first entry of the row of a node that does not hold.
fn row_fault(
    network: &Network,
    table: &BracketTable,
    node: u32,
    row: &BracketRow,
) -> Option<BracketRejection>
    requires nodes { table.now.head.nodes ≡ network.now.nodes }
    requires table { IsBracket table.now }
    requires row { bracket_row_of table.now node ≡ Some row.now }
    ensures { result ≡ bracket_row_rejection network.now table.now node row.now }
{
    for (index, entry) in row.entries.as_slice().iter().enumerate() {
        let budget = row.first + index as u32;
        if let Some(fault) = entry_fault(network, table, node, budget, *entry) {
            return Some(fault);
        }
    }
    None
}

/// Why an entry does not hold.
fn entry_fault(
    network: &Network,
    table: &BracketTable,
    node: u32,
    budget: u32,
    entry: BracketEntry,
) -> Option<BracketRejection>
    requires nodes { table.now.head.nodes ≡ network.now.nodes }
    requires table { IsBracket table.now }
    requires entry { bracket_entry_of table.now node budget ≡ Some entry }
    ensures { result ≡ bracket_entry_fault network.now table.now node budget entry }
{
    if let Some(fault) = lower_fault(network, table, node, budget, entry) {
        return Some(fault);
    }
    let upper = entry.upper.min(Grain::ONE.get());
    if is_exceeded(network, table, node, budget, upper) {
        return Some(BracketRejection::Upper(node, budget));
    }
    None
}

/// Why the lower side of an entry does not hold.
fn lower_fault(
    network: &Network,
    table: &BracketTable,
    node: u32,
    budget: u32,
    entry: BracketEntry,
) -> Option<BracketRejection>
    requires { table.now.head.nodes ≡ network.now.nodes }
    ensures { result ≡ option_map of_lower
        (entry_fault network.now (lower table.now) node budget (lower_entry entry)) }
{
    if entry.arc == 0 {
        return if entry.lower == 0 {
            None
        } else {
            Some(BracketRejection::Lower(node, budget))
        };
    }
    let Some(arc) = network.arc(ArcId(entry.arc)) else {
        return Some(BracketRejection::NoArc(node, budget));
    };
    if arc.tail.get() != node {
        return Some(BracketRejection::WrongTail(node, budget));
    }
    let needed = needed(entry.lower, network.scale());
    if side_sum(table, Side::Lower, arc, budget) < needed {
        return Some(BracketRejection::Lower(node, budget));
    }
    None
}

/// Whether an arc from a node is worth more than so many units by the upper values.
fn is_exceeded(network: &Network, table: &BracketTable, node: u32, budget: u32, units: u64) -> bool
    requires nodes { table.now.head.nodes ≡ network.now.nodes }
    requires node { IsNode network.now node }
    ensures { result ≡ list_any (exceeds (upper table.now) node budget (units * network.now.scale))
        network.now.arcs }
{
    numbers_of_arcs();
    arcs_by_number();
    sums_and_scores();
    let most = needed(units, network.scale());
    // No arc is worth more than one whole, which most entries have as their upper value.
    if Grain::ONE.get() <= units {
        return false;
    }
    for number in network.leaving(NodeId(node)) {
        let arc = network.numbered(*number);
        if most < side_sum(table, Side::Upper, arc, budget) {
            return true;
        }
    }
    false
}
