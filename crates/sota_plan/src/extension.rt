// The entries that are missing, extent by extent.
ghost use Rattle.std.specs.Prelude.{◌≡◌, ◌+◌, ◌*◌, map};
ghost use Rattle.sota_kept.specs.States.{grown_state, missing_in};
ghost use Rattle.sota_kept.specs.TableLists.{IsSettled, state_of};
ghost use Rattle.sota_tables.specs.Views.{lists_of};
ghost use Rattle.sota_plan.specs.Runs.{IsReady, AreSpent, states_of};

use crate::feeding::feed_extent;
use crate::laws::region_laws;
use crate::run::Run;
use sota_bounds::AskRegion;
use sota_fill::{ArcMap, Part, Summers, Target, fill_extent};
use sota_kept::kept::{asks_end, tables_stay_right};
use sota_network::Network;
use sota_online::{Summer, Workspace};
use sota_order::Order;
use sota_tables::Tables;
use sota_tables::laws::views_are_lists;
use sota_units::Steps;
use std::sync::ledger::Ledger;

/// Fills one extent after another until all needs are met. The summers of the arcs that leave a
/// node are fed before its extent is filled.
fn extend_all<Z: Summer, M: Ledger, P: Ledger>(
    tables: &mut Tables,
    network: &Network,
    region: &AskRegion,
    order: &mut Order,
    broad: &mut ArcMap<Summers<Z>>,
    workspace: &mut Workspace,
    products: &mut Steps<M>,
    pushes: &mut Steps<P>,
)
    requires { IsReady (record {
      region = region.now;
      order = order.old;
      sums = map (states_of Z.state) broad.old;
      places = workspace.old;
    }) tables.old network.now }
    ensures state { state_of (lists_of tables.new)
        ≡ grown_state network.now region.now.origin region.now.dest region.now.budget
        (state_of (lists_of tables.old)) }
    ensures settled { IsSettled (lists_of tables.new) network.now }
    ensures count { pushes.new ≡ pushes.old
        + 3 * missing_in network.now region.now.origin region.now.dest region.now.budget
        (state_of (lists_of tables.old)) }
    ensures spent { AreSpent tables.old (record {
      region = region.now;
      order = order.new;
      sums = map (states_of Z.state) broad.new;
      places = workspace.new;
    }) network.now }
{
    asks_end();
    region_laws();
    tables_stay_right();
    views_are_lists();
    let target = Target {
        network,
        dest: region.dest,
        least: region.least.as_slice(),
    };
    let mut part = Part::new();
    while let Some(extent) = order.next_extent(network) {
        let (node, to) = (extent.node, extent.to);
        feed_extent(&target, tables, broad, node, to, workspace, products);
        fill_extent(
            tables,
            &target,
            broad,
            node,
            extent.from,
            to,
            &mut part,
            pushes,
        );
    }
}

/// Adds the missing entries of an ask that is prepared: each is three pushes. The fronts are then
/// those after the ask's last step, all else of the state is as before, and no entry is missing
/// below a known end. The summers of each broad arc whose tail missed entries were fed exactly the
/// grid's values at its head that these rest on. It takes no memory and cannot be refused.
pub fn extend<Z: Summer, M: Ledger, P: Ledger>(
    tables: &mut Tables,
    network: &Network,
    run: &mut Run<'_, Z>,
    products: &mut Steps<M>,
    pushes: &mut Steps<P>,
)
    requires { IsReady run.old tables.old network.now }
    ensures state { state_of (lists_of tables.new)
        ≡ grown_state network.now run.old.region.origin run.old.region.dest run.old.region.budget
        (state_of (lists_of tables.old)) }
    ensures settled { IsSettled (lists_of tables.new) network.now }
    ensures count { pushes.new ≡ pushes.old
        + 3 * missing_in network.now run.old.region.origin run.old.region.dest
        run.old.region.budget (state_of (lists_of tables.old)) }
    ensures spent { AreSpent tables.old run.new network.now }
    ensures region { run.new.region ≡ run.old.region }
{
    extend_all(
        tables,
        network,
        run.region,
        &mut run.order,
        &mut run.broad,
        &mut run.workspace,
        products,
        pushes,
    );
}
