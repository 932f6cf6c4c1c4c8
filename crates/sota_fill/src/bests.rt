// The best arc that leaves a node, at budgets in a row.
ghost use Rattle.std.specs.Prelude.{ℕ, ◌≡◌, ◌≢◌, ◌+◌, ◌-◌, ◌<◌, ◌≤◌, length, slice_index, Some};
ghost use Rattle.sota_network.specs.Network.{IsNode, arc_at};
ghost use Rattle.sota_network.specs.Grid.{plain_sum};
ghost use Rattle.sota_network.specs.declared.network.Arc.{Arc};
ghost use Rattle.sota_kept.specs.Ticks.{END_LIMIT};
ghost use Rattle.sota_tables.specs.Views.{HasNode, table_at};
ghost use Rattle.sota_fill.specs.Bests.{AreBest, AreChoices, AreChosen, AreFrom, AreRaised};
ghost use Rattle.sota_fill.specs.Bests.{AreRaisedFrom, lower_from, upper_from};
ghost use Rattle.sota_fill.specs.Bounds.{bound_row, value_in};
ghost use Rattle.sota_fill.specs.Fed.{AllFed};
ghost use Rattle.sota_fill.specs.Fills.{AreSources, CanSum, ReadsGrid};

use crate::beaten::{is_beaten, is_far_below};
use crate::broad::broad_sums;
use crate::laws::filling_laws;
use crate::part::{Part, choose, raise};
use crate::sources::Sources;
use sota_network::Arc;
use sota_online::Summer;
use sota_sums::{Bound, arc_sums, certain_sums};
use sota_tables::Tables;
use sota_units::{ArcId, Grain, NodeId};

/// The values of a node from its base on.
fn row_of(tables: &Tables, node: NodeId, bound: Bound) -> &[Grain]
    requires { HasNode tables.now node }
    ensures { result.now ≡ bound_row bound (table_at tables.now node) }
{
    match bound {
        Bound::Lower => tables.lower_row(node),
        Bound::Upper => tables.upper_row(node),
    }
}

/// The sums of an arc at budgets in a row, by the tables.
fn row_sums(tables: &Tables, dest: NodeId, arc: &Arc, bound: Bound, from: u32, into: &mut [u128])
    requires head { arc.now.head ≢ dest → HasNode tables.now arc.now.head }
    requires limit { from + length into.old ≤ END_LIMIT }
    ensures sums { (x : ℕ) → x < length into.old → slice_index into.new x
        ≡ plain_sum arc.now (value_in bound dest (table_at tables.now)) (from + x) }
    ensures room { length into.new ≡ length into.old }
{
    if arc.head == dest {
        certain_sums(&arc.time, from, into);
    } else {
        let row = row_of(tables, arc.head, bound);
        arc_sums(&arc.time, row, tables.base(arc.head), from, into);
    }
}

/// The sums of an arc at budgets in a row: by its summers where it has them, else by the tables.
fn sums_of<Z: Summer>(
    sources: &Sources<Z>,
    number: ArcId,
    bound: Bound,
    from: u32,
    into: &mut [u128],
)
    requires { CanSum Z.state sources.now number from (from + length into.old) }
    ensures sums { (arc : Arc) → arc_at sources.now.target.now.network.now number ≡ Some arc
        → (x : ℕ) → x < length into.old → slice_index into.new x ≡ plain_sum arc
        (value_in bound sources.now.target.now.dest (table_at sources.now.tables.now))
        (from + x) }
    ensures room { length into.new ≡ length into.old }
{
    let arc = sources.target.network.numbered(number);
    match sources.broad.get(number) {
        Some(two) => {
            let base = sources.target.base(arc.head);
            broad_sums(two.of(bound), arc.time.least().get(), base, from, into);
        }
        None => row_sums(sources.tables, sources.target.dest, arc, bound, from, into),
    }
}

/// The lower sums of one arc more among those whose greatest sums are found. Answers the last.
fn add_lower<Z: Summer>(
    sources: &Sources<Z>,
    number: ArcId,
    from: u32,
    count: usize,
    part: &mut Part,
) -> u128
    requires sum { CanSum Z.state sources.now number from (from + count) }
    requires count { (1 ≤ count) × (count ≤ 64) }
    ensures lower { AreRaised sources.now.target.now (lower_from sources.now) number from count
        part.old.lower part.new.lower }
    ensures choices { AreChosen sources.now.target.now (lower_from sources.now) number from count
        part.old.lower part.old.choices part.new.choices }
    ensures last { (arc : Arc) → arc_at sources.now.target.now.network.now number ≡ Some arc
        → result ≡ plain_sum arc (lower_from sources.now) (from + (count - 1)) }
    ensures upper { part.new.upper ≡ part.old.upper }
{
    let sums = &mut part.sums[..count];
    sums_of(sources, number, Bound::Lower, from, sums);
    choose(
        number,
        &part.sums,
        &mut part.lower,
        &mut part.choices,
        count,
    );
    part.sums[count - 1]
}

/// Its upper sums.
fn add_upper<Z: Summer>(
    sources: &Sources<Z>,
    number: ArcId,
    from: u32,
    count: usize,
    part: &mut Part,
)
    requires sum { CanSum Z.state sources.now number from (from + count) }
    requires count { (1 ≤ count) × (count ≤ 64) }
    ensures upper { AreRaised sources.now.target.now (upper_from sources.now) number from count
        part.old.upper part.new.upper }
    ensures lower { part.new.lower ≡ part.old.lower }
    ensures choices { part.new.choices ≡ part.old.choices }
{
    let sums = &mut part.sums[..count];
    sums_of(sources, number, Bound::Upper, from, sums);
    raise(&part.sums, &mut part.upper, count);
}

/// One arc more among those whose greatest sums are found. Upper sums that stay below a floor times
/// the scale are left out.
fn add_arc<Z: Summer>(
    sources: &Sources<Z>,
    number: ArcId,
    from: u32,
    count: usize,
    floor: Grain,
    part: &mut Part,
)
    requires sum { CanSum Z.state sources.now number from (from + count) }
    requires count { (1 ≤ count) × (count ≤ 64) }
    ensures lower { AreRaised sources.now.target.now (lower_from sources.now) number from count
        part.old.lower part.new.lower }
    ensures upper { AreRaisedFrom sources.now.target.now (upper_from sources.now) number from count
        floor part.old.upper part.new.upper }
    ensures choices { AreChosen sources.now.target.now (lower_from sources.now) number from count
        part.old.lower part.old.choices part.new.choices }
{
    filling_laws();
    let scale = sources.target.network.scale();
    let most = add_lower(sources, number, from, count, part);
    if is_far_below(most, scale, from + count as u32, floor) {
        return;
    }
    add_upper(sources, number, from, count, part);
}

/// The greatest sums of the arcs that leave a node, at so many budgets in a row from `from` on, and
/// the least number of an arc that has the greatest lower one, where that is not 0. None of the
/// greatest sums is below a floor times the scale, so arcs that stay below it are passed over.
pub(crate) fn find_bests<Z: Summer>(
    sources: &Sources<Z>,
    node: NodeId,
    from: u32,
    count: usize,
    floor: Grain,
    part: &mut Part,
)
    requires node { IsNode sources.now.target.now.network.now node }
    requires fit { AreSources sources.now }
    requires fed { AllFed Z.state sources.now.target.now.network.now sources.now.target.now.dest
        node from (from + count) sources.now.broad.now }
    requires reads { ReadsGrid sources.now.target.now.network.now sources.now.target.now.dest
        node (from + count) (table_at sources.now.tables.now) }
    requires limit { from + count ≤ END_LIMIT }
    requires count { (1 ≤ count) × (count ≤ 64) }
    requires lower_floor { AreFrom sources.now.target.now (lower_from sources.now) node from count
        floor }
    requires upper_floor { AreFrom sources.now.target.now (upper_from sources.now) node from count
        floor }
    ensures lower { AreBest sources.now.target.now (lower_from sources.now) node from count
        part.new.lower }
    ensures upper { AreBest sources.now.target.now (upper_from sources.now) node from count
        part.new.upper }
    ensures choices { AreChoices sources.now.target.now (lower_from sources.now) node from count
        part.new.choices }
{
    filling_laws();
    part.clear(count);
    let to = from + count as u32;
    for number in sources.target.network.leaving(node) {
        let arc = sources.target.network.numbered(*number);
        if is_beaten(sources.tables, sources.target.dest, arc, to, floor) {
            continue;
        }
        add_arc(sources, *number, from, count, floor, part);
    }
}
