// The greatest sums of a node at budgets in a row.
ghost use Rattle.std.specs.Prelude.{ℕ, ◌≡◌, ◌+◌, ◌<◌, ◌≤◌, max, Some, length, slice_index};
ghost use Rattle.sota_units.specs.Limits.{BUDGET_LIMIT};
ghost use Rattle.sota_hist.specs.Time.{IsTime};
ghost use Rattle.sota_network.specs.Network.{IsNode, arc_at};
ghost use Rattle.sota_network.specs.declared.network.Arc.{Arc};
ghost use Rattle.sota_network.specs.Grid.{plain_sum, best_sum, choice_of};
ghost use Rattle.sota_period.specs.Rows.{row_value};
ghost use Rattle.sota_period.specs.Broad.{AllRead, AreSummers, IsRead, StillSummers};

use crate::broad::{feed_arc, summer_of};
use crate::part::Part;
use crate::table::row_of;
use sota_bank::RowBank;
use sota_fill::broad_sums;
use sota_network::laws::{arcs_by_number, arcs_one_by_one, sums_and_scores};
use sota_network::{Arc, Network};
use sota_online::{Summer, Workspace};
use sota_sums::arc_sums;
use sota_units::{ArcId, Grain, NodeId, Steps};
use std::sync::ledger::Ledger;

/// The sums of an arc at budgets in a row, from `from` on, by the row of its head.
fn head_sums(arc: &Arc, rows: &RowBank<Grain>, from: usize, into: &mut [u128])
    requires time { IsTime arc.now.time }
    requires head { (1 ≤ arc.now.head) × (arc.now.head ≤ length rows.now) }
    requires limit { from + length into.old ≤ BUDGET_LIMIT + 1 }
    ensures sums { (x : ℕ) → x < length into.old → slice_index into.new x
        ≡ plain_sum arc.now (row_value rows.now) (from + x) }
    ensures room { length into.new ≡ length into.old }
{
    sums_and_scores();
    let row = row_of(rows, arc.head);
    arc_sums(&arc.time, row, 0, from as u32, into);
}

/// The sums of an arc at budgets in a row: by its summer where it has one, which is fed its head's
/// row before, else by that row.
fn sums_of<Z: Summer, M: Ledger>(
    network: &Network,
    number: ArcId,
    rows: &RowBank<Grain>,
    broad: &mut [Option<Box<Z>>],
    from: usize,
    into: &mut [u128],
    workspace: &mut Workspace,
    products: &mut Steps<M>,
)
    requires number { (1 ≤ number) × (number ≤ length network.now.arcs) }
    requires rows { network.now.nodes ≤ length rows.now }
    requires limit { from + length into.old ≤ BUDGET_LIMIT + 1 }
    requires summers { AreSummers Z.state rows.now network.now from workspace.old broad.old }
    requires read { (arc : Arc) → arc_at network.now number ≡ Some arc
        → IsRead rows.now (from + length into.old) arc }
    ensures sums { (arc : Arc) → arc_at network.now number ≡ Some arc → (x : ℕ)
        → x < length into.old → slice_index into.new x
        ≡ plain_sum arc (row_value rows.now) (from + x) }
    ensures room { length into.new ≡ length into.old }
    ensures summers { StillSummers Z.state rows.now network.now workspace.old broad.old
        workspace.new broad.new }
{
    feed_arc(network, number, rows, broad, workspace, products);
    let arc = network.numbered(number);
    match summer_of(broad, number) {
        Some(summer) => {
            let least = arc.time.least().get();
            broad_sums(summer, least, 0, from as u32, into);
        }
        None => head_sums(arc, rows, from, into),
    }
}

/// Each of the first best sums becomes the greater of itself and that of one arc more.
fn raise(sums: &[u128], bests: &mut [u128], count: usize)
    requires { (count ≤ length sums.now) × (count ≤ length bests.old) }
    ensures sums { (x : ℕ) → x < count
        → slice_index bests.new x ≡ max (slice_index bests.old x) (slice_index sums.now x) }
    ensures room { length bests.new ≡ length bests.old }
{
    for place in 0..count {
        bests[place] = bests[place].max(sums[place]);
    }
}

/// The greatest sums of the arcs that leave a node, at so many budgets in a row from `from` on, by
/// their summers and the rows of their heads.
pub(crate) fn find_bests<Z: Summer, M: Ledger>(
    network: &Network,
    node: NodeId,
    rows: &RowBank<Grain>,
    broad: &mut [Option<Box<Z>>],
    from: usize,
    count: usize,
    part: &mut Part,
    workspace: &mut Workspace,
    products: &mut Steps<M>,
)
    requires node { IsNode network.now node }
    requires rows { network.now.nodes ≤ length rows.now }
    requires limit { from + count ≤ BUDGET_LIMIT + 1 }
    requires count { count ≤ 64 }
    requires summers { AreSummers Z.state rows.now network.now from workspace.old broad.old }
    requires read { AllRead rows.now (from + count) network.now node }
    ensures bests { (x : ℕ) → x < count → slice_index part.new.bests x
        ≡ best_sum network.now (row_value rows.now) node (from + x) }
    ensures room { length part.new.bests ≡ 64 }
    ensures grains { part.new.grains ≡ part.old.grains }
    ensures summers { StillSummers Z.state rows.now network.now workspace.old broad.old
        workspace.new broad.new }
{
    arcs_one_by_one();
    part.clear(count);
    for number in network.leaving(node) {
        let sums = &mut part.sums[..count];
        sums_of(
            network, *number, rows, broad, from, sums, workspace, products,
        );
        raise(&part.sums, &mut part.bests, count);
    }
}

/// The first arc that leaves a node with the greatest sum at a budget, by the rows of the heads.
/// None where that sum is 0.
pub(crate) fn choose(
    network: &Network,
    node: NodeId,
    rows: &RowBank<Grain>,
    budget: usize,
) -> Option<ArcId>
    requires node { IsNode network.now node }
    requires rows { network.now.nodes ≤ length rows.now }
    requires budget { budget ≤ BUDGET_LIMIT }
    ensures { result ≡ choice_of network.now.arcs
        (λ arc. plain_sum arc (row_value rows.now) budget) node }
{
    arcs_one_by_one();
    arcs_by_number();
    let mut best = 0;
    let mut choice = None;
    let mut sums = [0u128; 1];
    for number in network.leaving(node) {
        head_sums(network.numbered(*number), rows, budget, &mut sums);
        if best < sums[0] {
            best = sums[0];
            choice = Some(*number);
        }
    }
    choice
}
