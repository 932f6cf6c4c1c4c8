// Entries of a node, at the budgets from its known end on.
ghost use Rattle.std.specs.Prelude.{◌≡◌, ◌+◌, ◌-◌, ◌*◌, ◌<◌, ◌≤◌, length};
ghost use Rattle.sota_kept.specs.NodeTables.{AreReady};
ghost use Rattle.sota_tables.specs.Views.{table_at};
ghost use Rattle.sota_fill.specs.Bests.{AreBest, AreChoices, lower_by, upper_by};
ghost use Rattle.sota_fill.specs.Certain.{EndsCertain};
ghost use Rattle.sota_fill.specs.Fed.{AllFed, IsTarget};
ghost use Rattle.sota_fill.specs.Fills.{IsLonger, IsUnfilled};

use crate::arc_map::ArcMap;
use crate::beaten::last_value;
use crate::bests::find_bests;
use crate::broad::Summers;
use crate::certain::certain_arc;
use crate::laws::filling_laws;
use crate::part::{PART, Part};
use crate::sources::Sources;
use crate::target::Target;
use sota_network::Network;
use sota_online::Summer;
use sota_sums::{Bound, round};
use sota_tables::Tables;
use sota_units::{ArcId, NodeId, Steps};
use std::sync::ledger::Ledger;

/// Adds so many entries of a node that is not the destination, from its known end on, by the best
/// sums there. All that these read was known.
fn push_bests<P: Ledger>(
    tables: &mut Tables,
    target: &Target,
    node: NodeId,
    from: u32,
    count: usize,
    part: &mut Part,
    pushes: &mut Steps<P>,
)
    requires unfilled { IsUnfilled target.now.network.now target.now.dest node from (from + count)
        tables.old }
    requires count { count ≤ 64 }
    requires lower { AreBest target.now (lower_by target.now tables.old) node from count
        part.old.lower }
    requires upper { AreBest target.now (upper_by target.now tables.old) node from count
        part.old.upper }
    requires choices { AreChoices target.now (lower_by target.now tables.old) node from count
        part.old.choices }
    ensures ready { AreReady target.now.network.now target.now.dest (table_at tables.new) }
    ensures longer { IsLonger node count tables.old tables.new }
    ensures count { pushes.new ≡ pushes.old + 3 * count }
{
    filling_laws();
    let scale = target.network.scale();
    round(&part.lower, scale, Bound::Lower, &mut part.floors, count);
    round(&part.upper, scale, Bound::Upper, &mut part.ceilings, count);
    let (floors, ceilings) = (&part.floors[..count], &part.ceilings[..count]);
    tables.push_extent(node, floors, ceilings, &part.choices[..count], pushes);
}

/// Adds so many entries of a node that is not the destination, from its known end on, where its
/// last entry is certain and takes its first arc.
fn push_certain<P: Ledger>(
    tables: &mut Tables,
    network: &Network,
    dest: NodeId,
    node: NodeId,
    from: u32,
    count: usize,
    arc: ArcId,
    part: &mut Part,
    pushes: &mut Steps<P>,
)
    requires unfilled { IsUnfilled network.now dest node from (from + count) tables.old }
    requires count { count ≤ 64 }
    requires arc { 1 ≤ arc }
    requires certain { EndsCertain network.now node arc (table_at tables.old node) }
    ensures ready { AreReady network.now dest (table_at tables.new) }
    ensures longer { IsLonger node count tables.old tables.new }
    ensures count { pushes.new ≡ pushes.old + 3 * count }
{
    filling_laws();
    part.certain(arc, count);
    let ones = &part.floors[..count];
    tables.push_extent(node, ones, ones, &part.choices[..count], pushes);
}

/// Adds so many entries of a node that is not the destination, from its known end on. All that
/// these read is known.
fn fill_part<Z: Summer, P: Ledger>(
    tables: &mut Tables,
    target: &Target,
    broad: &ArcMap<Summers<Z>>,
    node: NodeId,
    from: u32,
    count: usize,
    part: &mut Part,
    pushes: &mut Steps<P>,
)
    requires unfilled { IsUnfilled target.now.network.now target.now.dest node from (from + count)
        tables.old }
    requires count { count ≤ 64 }
    requires broad { length broad.now ≡ length target.now.network.now.arcs }
    requires target { IsTarget target.now }
    requires fed { AllFed Z.state target.now.network.now target.now.dest node from (from + count)
        broad.now }
    ensures ready { AreReady target.now.network.now target.now.dest (table_at tables.new) }
    ensures longer { IsLonger node count tables.old tables.new }
    ensures count { pushes.new ≡ pushes.old + 3 * count }
{
    filling_laws();
    let (network, dest) = (target.network, target.dest);
    match certain_arc(network, tables, node) {
        Some(arc) => push_certain(tables, network, dest, node, from, count, arc, part, pushes),
        None => {
            let floor = last_value(tables.lower_row(node));
            let sources = Sources {
                target,
                tables,
                broad,
            };
            find_bests(&sources, node, from, count, floor, part);
            push_bests(tables, target, node, from, count, part, pushes);
        }
    }
}

/// Fills an extent of a node that is not the destination: adds its entries from the known end up to
/// `to`. All that these read is known, and the summers of the arcs that leave the node were fed as
/// far. It takes no memory; what is found on the way is kept in the part that is lent.
pub fn fill_extent<Z: Summer, P: Ledger>(
    tables: &mut Tables,
    target: &Target,
    broad: &ArcMap<Summers<Z>>,
    node: NodeId,
    from: u32,
    to: u32,
    part: &mut Part,
    pushes: &mut Steps<P>,
)
    requires unfilled { IsUnfilled target.now.network.now target.now.dest node from to tables.old }
    requires broad { length broad.now ≡ length target.now.network.now.arcs }
    requires target { IsTarget target.now }
    requires fed { AllFed Z.state target.now.network.now target.now.dest node from to broad.now }
    ensures ready { AreReady target.now.network.now target.now.dest (table_at tables.new) }
    ensures longer { IsLonger node (to - from) tables.old tables.new }
    ensures count { pushes.new ≡ pushes.old + 3 * (to - from) }
{
    filling_laws();
    let mut budget = from;
    while budget < to {
        let count = ((to - budget) as usize).min(PART);
        fill_part(tables, target, broad, node, budget, count, part, pushes);
        budget += count as u32;
    }
}
