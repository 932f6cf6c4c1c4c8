// A row goes on by the values of its node at budgets in a row.
ghost use Rattle.std.specs.Prelude.{ℕ, ◌≡◌, ◌≢◌, ◌+◌, ◌-◌, ◌*◌, ◌<◌, ◌≤◌, ◌++◌, min};
ghost use Rattle.std.specs.Prelude.{length, slice_index, take};
ghost use Rattle.sota_units.specs.Limits.{BUDGET_LIMIT};
ghost use Rattle.sota_units.specs.Rounding.{ONE};
ghost use Rattle.sota_bank.specs.Rows.{with_list};
ghost use Rattle.sota_network.specs.Network.{IsNode};
ghost use Rattle.sota_network.specs.Grid.{best_sum};
ghost use Rattle.sota_sums.specs.Bounds.{rounded_in};
ghost use Rattle.sota_period.specs.Rows.{AreLonger, AreRows, IsBlock};
ghost use Rattle.sota_period.specs.Rows.{asked_need, row_room, row_value, timed_row};
ghost use Rattle.sota_period.specs.Broad.{AllRead, AreSummers, StillSummers};

use crate::ask::Block;
use crate::bests::find_bests;
use crate::laws::network_laws;
use crate::part::Part;
use crate::table::known_of;
use sota_bank::RowBank;
use sota_online::{Summer, Workspace};
use sota_sums::round;
use sota_units::{Grain, NodeId, Steps};
use std::sync::ledger::Ledger;

/// Appends to the row of a node the rounded greatest sums of its arcs, at so many budgets from the
/// first on at which it has no value.
fn append_values<Z: Summer, M: Ledger>(
    block: &Block,
    node: NodeId,
    rows: &mut RowBank<Grain>,
    broad: &mut [Option<Box<Z>>],
    at: usize,
    count: usize,
    part: &mut Part,
    workspace: &mut Workspace,
    products: &mut Steps<M>,
)
    requires node { IsNode block.now.network.now node }
    requires rows { block.now.network.now.nodes ≤ length rows.old }
    requires limit { at + count ≤ BUDGET_LIMIT + 1 }
    requires at { at ≡ length (timed_row rows.old node) }
    requires room { at + count ≤ row_room rows.old node }
    requires count { count ≤ 64 }
    requires summers { AreSummers Z.state rows.old block.now.network.now at workspace.old
        broad.old }
    requires read { AllRead rows.old (at + count) block.now.network.now node }
    requires small { (x : ℕ) → x < count
        → best_sum block.now.network.now (row_value rows.old) node (at + x)
        ≤ block.now.network.now.scale * ONE }
    ensures rows { rows.new ≡ with_list rows.old (node - 1)
        (timed_row rows.old node ++ take count part.new.grains) }
    ensures grains { length part.new.grains ≡ 64 }
    ensures values { (x : ℕ) → x < count → slice_index part.new.grains x
        ≡ rounded_in block.now.ask.now.bound block.now.network.now.scale
        (best_sum block.now.network.now (row_value rows.old) node (at + x)) }
    ensures summers { StillSummers Z.state rows.old block.now.network.now workspace.old broad.old
        workspace.new broad.new }
{
    let network = block.network;
    find_bests(
        network, node, rows, broad, at, count, part, workspace, products,
    );
    let (bests, scale) = (&part.bests, network.scale());
    round(bests, scale, block.ask.bound, &mut part.grains, count);
    let row = node.get() as usize - 1;
    rows.append(row, &part.grains[..count], products);
}

/// Appends to the row of a node that is not the destination its values at the budgets of a block
/// that it needs and that are not there yet.
pub(crate) fn extend_row<Z: Summer, M: Ledger>(
    block: &Block,
    node: NodeId,
    rows: &mut RowBank<Grain>,
    broad: &mut [Option<Box<Z>>],
    part: &mut Part,
    workspace: &mut Workspace,
    products: &mut Steps<M>,
)
    requires block { IsBlock block.now }
    requires node { IsNode block.now.network.now node }
    requires off { node ≢ block.now.ask.now.dest }
    requires rows { AreRows block.now.ask.now block.now.from rows.old }
    requires summers { AreSummers Z.state rows.old block.now.network.now block.now.from
        workspace.old broad.old }
    ensures rows { AreRows block.now.ask.now block.now.from rows.new }
    ensures longer { AreLonger rows.old rows.new }
    ensures reach { min (block.now.from + block.now.count) (asked_need block.now.ask.now node)
        ≤ length (timed_row rows.new node) }
    ensures summers { AreSummers Z.state rows.new block.now.network.now block.now.from
        workspace.new broad.new }
{
    network_laws();
    let at = known_of(rows, node) as usize;
    let room = rows.cap(node.get() as usize - 1) as usize;
    let end = room.min(block.from + block.count);
    if at < end {
        let count = end - at;
        append_values(
            block, node, rows, broad, at, count, part, workspace, products,
        );
    }
}
