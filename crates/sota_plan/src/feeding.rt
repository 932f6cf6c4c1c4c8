// Feeds summers the values at the heads of their arcs.
ghost use Rattle.std.specs.Prelude.{ℕ, ◌≡◌, ◌≢◌, ◌+◌, ◌-◌, ◌<◌, ◌≤◌, max, length};
ghost use Rattle.std.specs.Prelude.{None, Some, false};
ghost use Rattle.sota_hist.specs.Time.{is_closed, least_tick};
ghost use Rattle.sota_network.specs.Network.{IsNet, IsNode, arc_at};
ghost use Rattle.sota_network.specs.declared.network.Arc.{Arc};
ghost use Rattle.sota_kept.specs.Ticks.{END_LIMIT};
ghost use Rattle.sota_kept.specs.NodeTables.{AreReady, IsExtent, known_end};
ghost use Rattle.sota_kept.specs.NodeTables.{lower_in, upper_in};
ghost use Rattle.sota_tables.specs.Views.{HasNode, table_at};
ghost use Rattle.sota_fill.specs.Fed.{IsFed, IsSameSummer, IsTarget, summers_at};
ghost use Rattle.sota_fill.specs.Fills.{ReadsAs};
ghost use Rattle.sota_fill.specs.declared.broad.Summers.{Summers};
ghost use Rattle.sota_plan.specs.Summed.{CanFeed, AllCanFeed, SummedAs, values_below};

use sota_fill::laws::extents_read_the_grid;
use sota_fill::{ArcMap, Summers, Target, feed_ones, feed_row};
use sota_network::Arc;
use sota_network::laws::numbers_of_arcs;
use sota_online::{Summer, Workspace};
use sota_tables::Tables;
use sota_units::{ArcId, NodeId, Steps};
use std::sync::ledger::Ledger;

/// Feeds the two summers of an open arc what the budgets of its tail below `to` rest on: the values
/// at its head from a base on.
fn feed_both<Z: Summer, M: Ledger>(
    tables: &Tables,
    dest: NodeId,
    arc: &Arc,
    two: &mut Summers<Z>,
    base: u32,
    to: u32,
    workspace: &mut Workspace,
    products: &mut Steps<M>,
)
    requires open { is_closed arc.now.time ≡ false }
    requires base { base ≤ END_LIMIT }
    requires head { arc.now.head ≢ dest → HasNode tables.now arc.now.head }
    requires above { arc.now.head ≢ dest → (table_at tables.now arc.now.head).base ≤ base }
    requires known { arc.now.head ≢ dest
        → to ≤ known_end (table_at tables.now arc.now.head) + least_tick arc.now.time }
    requires lower_room { to - (least_tick arc.now.time + base)
        ≤ length (Z.state two.old.lower).values + (Z.state two.old.lower).room }
    requires upper_room { to - (least_tick arc.now.time + base)
        ≤ length (Z.state two.old.upper).values + (Z.state two.old.upper).room }
    requires lower_work { length (Z.state two.old.lower).kernel ≤ workspace.old }
    requires upper_work { length (Z.state two.old.upper).kernel ≤ workspace.old }
    ensures lower { (f : ℕ → ℕ) → IsFed (Z.state two.old.lower) arc.now.time base f
        → ((u : ℕ) → base ≤ u → u + least_tick arc.now.time < to
        → lower_in dest (table_at tables.now) arc.now.head u ≡ f u)
        → IsFed (Z.state two.new.lower) arc.now.time base f }
    ensures upper { (f : ℕ → ℕ) → IsFed (Z.state two.old.upper) arc.now.time base f
        → ((u : ℕ) → base ≤ u → u + least_tick arc.now.time < to
        → upper_in dest (table_at tables.now) arc.now.head u ≡ f u)
        → IsFed (Z.state two.new.upper) arc.now.time base f }
    ensures lower_count { length (Z.state two.new.lower).values
        ≡ max (length (Z.state two.old.lower).values) (to - (least_tick arc.now.time + base)) }
    ensures upper_count { length (Z.state two.new.upper).values
        ≡ max (length (Z.state two.old.upper).values) (to - (least_tick arc.now.time + base)) }
    ensures lower_same { IsSameSummer (Z.state two.old.lower) (Z.state two.new.lower) }
    ensures upper_same { IsSameSummer (Z.state two.old.upper) (Z.state two.new.upper) }
    ensures work { workspace.new ≡ workspace.old }
{
    let count = to
        .saturating_sub(base)
        .saturating_sub(arc.time.least().get());
    if arc.head == dest {
        feed_ones(&mut two.lower, count, workspace, products);
        feed_ones(&mut two.upper, count, workspace, products);
    } else {
        let skip = (base - tables.base(arc.head)) as usize;
        feed_row(
            &mut two.lower,
            tables.lower_row(arc.head),
            skip,
            count,
            workspace,
            products,
        );
        feed_row(
            &mut two.upper,
            tables.upper_row(arc.head),
            skip,
            count,
            workspace,
            products,
        );
    }
}

/// Feeds the two summers of an arc what the budgets of its tail below `to` rest on, where it has
/// summers.
fn feed_arc<Z: Summer, M: Ledger>(
    target: &Target,
    tables: &Tables,
    broad: &mut ArcMap<Summers<Z>>,
    number: ArcId,
    to: u32,
    workspace: &mut Workspace,
    products: &mut Steps<M>,
)
    requires number { (1 ≤ number) × (number ≤ length target.now.network.now.arcs) }
    requires nodes { length tables.now.fronts ≡ target.now.network.now.nodes }
    requires broad { length broad.old ≡ length target.now.network.now.arcs }
    requires target { IsTarget target.now }
    requires ready { AreReady target.now.network.now target.now.dest (table_at tables.now) }
    requires reads { (arc : Arc) → arc_at target.now.network.now number ≡ Some arc
        → ReadsAs target.now.network.now target.now.dest arc to (table_at tables.now) }
    requires known { (arc : Arc) → arc_at target.now.network.now number ≡ Some arc
        → is_closed arc.time ≡ false → arc.head ≢ target.now.dest
        → to ≤ known_end (table_at tables.now arc.head) + least_tick arc.time }
    requires can { (arc : Arc) (two : Summers Z) → arc_at target.now.network.now number ≡ Some arc
        → summers_at broad.old number ≡ Some two
        → CanFeed Z.state target.now.network.now target.now.dest arc to workspace.old two }
    ensures fed { (arc : Arc) (count total start : ℕ)
        → arc_at target.now.network.now number ≡ Some arc
        → SummedAs Z.state target.now.network.now target.now.dest arc count total start
        (summers_at broad.old number)
        → count ≤ values_below target.now.network.now target.now.dest arc to
        → SummedAs Z.state target.now.network.now target.now.dest arc
        (values_below target.now.network.now target.now.dest arc to) total start
        (summers_at broad.new number) }
    ensures none { summers_at broad.old number ≡ None → summers_at broad.new number ≡ None }
    ensures others { (e : ℕ) → 1 ≤ e → e ≢ number
        → summers_at broad.new e ≡ summers_at broad.old e }
    ensures length { length broad.new ≡ length broad.old }
    ensures work { workspace.new ≡ workspace.old }
{
    let arc = target.network.numbered(number);
    if let Some(two) = broad.get_mut(number) {
        let base = target.base(arc.head);
        feed_both(tables, target.dest, arc, two, base, to, workspace, products);
    }
}

/// Feeds the summers of all arcs that leave a node what its budgets below `to` rest on.
pub(crate) fn feed_extent<Z: Summer, M: Ledger>(
    target: &Target,
    tables: &Tables,
    broad: &mut ArcMap<Summers<Z>>,
    node: NodeId,
    to: u32,
    workspace: &mut Workspace,
    products: &mut Steps<M>,
)
    requires valid { IsNet target.now.network.now }
    requires node { IsNode target.now.network.now node }
    requires nodes { length tables.now.fronts ≡ target.now.network.now.nodes }
    requires broad { length broad.old ≡ length target.now.network.now.arcs }
    requires target { IsTarget target.now }
    requires ready { AreReady target.now.network.now target.now.dest (table_at tables.now) }
    requires extent { IsExtent target.now.network.now target.now.dest (table_at tables.now) node
        to }
    requires can { AllCanFeed Z.state target.now.network.now target.now.dest node to workspace.old
        broad.old }
    ensures fed { (e : ℕ) (arc : Arc) (count total start : ℕ)
        → arc_at target.now.network.now e ≡ Some arc → arc.tail ≡ node
        → SummedAs Z.state target.now.network.now target.now.dest arc count total start
        (summers_at broad.old e)
        → count ≤ values_below target.now.network.now target.now.dest arc to
        → SummedAs Z.state target.now.network.now target.now.dest arc
        (values_below target.now.network.now target.now.dest arc to) total start
        (summers_at broad.new e) }
    ensures others { (e : ℕ) (arc : Arc) → arc_at target.now.network.now e ≡ Some arc
        → arc.tail ≢ node → summers_at broad.new e ≡ summers_at broad.old e }
    ensures none { (e : ℕ) → 1 ≤ e → summers_at broad.old e ≡ None
        → summers_at broad.new e ≡ None }
    ensures length { length broad.new ≡ length broad.old }
    ensures work { workspace.new ≡ workspace.old }
{
    numbers_of_arcs();
    extents_read_the_grid();
    for number in target.network.leaving(node) {
        feed_arc(target, tables, broad, *number, to, workspace, products);
    }
}
