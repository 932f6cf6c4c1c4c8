// The judgement of a policy.
ghost use Rattle.std.specs.Prelude.{◌≡◌, ◌*◌, ◌^◌, ◌≤◌, ◌↔◌, IsOk, IfOk, IfErr, OnOk, Some, None};
ghost use Rattle.sota_units.specs.Rounding.{ONE};
ghost use Rattle.sota_network.specs.Network.{IsNet};
ghost use Rattle.sota_network.specs.Trees.{Fits, follow, score};
ghost use Rattle.sota_polfile.specs.Table.{IsRow, IsTable};
ghost use Rattle.sota_check.specs.Certified.{value, rule, IsCertified};
ghost use Rattle.sota_check.specs.Rejected.{entry_fault, entries_fault, rows_rejection, rejection};

use crate::sums::{arc_sum, needed};
use crate::{Certified, Rejection};
use sota_network::Network;
use sota_network::laws::{grid_encloses, sound_values};
use sota_polfile::{PolicyEntry, PolicyRow, PolicyTable, entries_stand_in_rows};
use sota_units::{ArcId, Grain, NodeId};

/// Whether each entry of a policy holds on a network. It takes no memory. An entry costs the pairs
/// of its arc within its budget, and a search for the row of the arc's head only where that is not
/// the row of the entry before.
pub fn check(network: &Network, table: &PolicyTable) -> Result<Certified, Rejection>
    ensures certified { IsOk result ↔ IsCertified network.now table.now }
    ensures first { IfErr result (λ cause. rejection network.now table.now ≡ Some cause) }
    ensures passed { OnOk result (rejection network.now table.now ≡ None) }
    ensures ask { IfOk result (λ c. (c.origin ≡ table.now.head.origin)
        × (c.dest ≡ table.now.head.dest) × (c.budget ≡ table.now.head.budget)) }
    ensures lower { IfOk result (λ c. c.lower ≡ value table.now c.origin c.budget) }

    // Who follows the arcs of the file from the origin attains what it claims.
    ensures fits { IfOk result (λ c. Fits network.now c.origin
        (follow network.now (rule table.now) c.dest c.origin c.budget)) }
    ensures attained { IfOk result (λ c. c.lower * network.now.scale ^ c.budget
        ≤ ONE * score network.now c.dest c.origin c.budget
        (follow network.now (rule table.now) c.dest c.origin c.budget)) }
    ensures whole { IfOk result (λ c. c.lower ≤ ONE) }
{
    entries_stand_in_rows();
    let head = table.head();
    if head.nodes != network.nodes() {
        return Err(Rejection::Size);
    }
    if head.scale != network.scale().get() {
        return Err(Rejection::Scale);
    }
    match first_fault(network, table) {
        Some(cause) => Err(cause),
        None => Ok(certified(network, table)),
    }
}

/// What a policy attains that holds at each entry.
fn certified(network: &Network, table: &PolicyTable) -> Certified
    requires valid { IsNet network.now }
    requires certified { IsCertified network.now table.now }
    ensures ask { (result.origin ≡ table.now.head.origin)
        × (result.dest ≡ table.now.head.dest) × (result.budget ≡ table.now.head.budget) }
    ensures lower { result.lower ≡ value table.now result.origin result.budget }
    ensures fits { Fits network.now result.origin
        (follow network.now (rule table.now) result.dest result.origin result.budget) }
    ensures attained { result.lower * network.now.scale ^ result.budget
        ≤ ONE * score network.now result.dest result.origin result.budget
        (follow network.now (rule table.now) result.dest result.origin result.budget) }
    ensures whole { result.lower ≤ ONE }
{
    grid_encloses();
    sound_values();
    let head = table.head();
    let units = named_value(table);
    Certified {
        origin: NodeId(head.origin),
        dest: NodeId(head.dest),
        budget: head.budget,
        lower: Grain::new(units).unwrap(),
    }
}

/// The value at the origin and the whole budget.
fn named_value(table: &PolicyTable) -> u64
    ensures { result ≡ value table.now table.now.head.origin table.now.head.budget }
{
    let head = table.head();
    if head.origin == head.dest {
        return Grain::ONE.get();
    }
    match table.entry(head.origin, head.budget) {
        Some(entry) => entry.value,
        None => 0,
    }
}

/// The first entry in file order that does not hold.
fn first_fault(network: &Network, table: &PolicyTable) -> Option<Rejection>
    ensures { result ≡ rows_rejection network.now (value table.now) table.now.rows }
{
    for row in table.rows() {
        if let Some(fault) = row_fault(network, table, row) {
            return Some(fault);
        }
    }
    None
}

/// The first entry of a row that does not hold.
fn row_fault(network: &Network, table: &PolicyTable, row: &PolicyRow) -> Option<Rejection>
    requires table { IsTable table.now }
    requires row { IsRow table.now.head row.now }
    ensures { result ≡ entries_fault network.now (value table.now)
        row.now.node row.now.first row.now.entries }
{
    let mut near = 0;
    for (index, entry) in row.entries.as_slice().iter().enumerate() {
        let budget = row.first + index as u32;
        if let Some(fault) = entry_fault(network, table, row.node, budget, *entry, &mut near) {
            return Some(fault);
        }
    }
    None
}

/// Why an entry does not hold. `near` is the place of the row that was read last.
fn entry_fault(
    network: &Network,
    table: &PolicyTable,
    node: u32,
    budget: u32,
    entry: PolicyEntry,
    near: &mut usize,
) -> Option<Rejection>
    ensures { result ≡ entry_fault network.now (value table.now) node budget entry }
{
    if entry.arc == 0 {
        return if entry.value == 0 {
            None
        } else {
            Some(Rejection::Value(node, budget))
        };
    }
    let Some(arc) = network.arc(ArcId(entry.arc)) else {
        return Some(Rejection::NoArc(node, budget));
    };
    if arc.tail.get() != node {
        return Some(Rejection::WrongTail(node, budget));
    }
    let needed = needed(entry.value, network.scale());
    if arc_sum(table, arc, budget, near) < needed {
        return Some(Rejection::Value(node, budget));
    }
    None
}
