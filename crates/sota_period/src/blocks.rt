// Blocks of budgets at which no value reads another.
ghost use Rattle.std.specs.Prelude.{◌≡◌, ◌+◌, ◌<◌, ◌≤◌, false, OnOk};
ghost use Rattle.sota_hist.specs.Time.{is_closed, least_tick};
ghost use Rattle.sota_period.specs.Rows.{AreRows, IsAsk, IsBlock, PeriodHolds, TakesAtLeast};
ghost use Rattle.sota_period.specs.Broad.{AreSummers};

use crate::ask::{Ask, Block};
use crate::broad::make_summers;
use crate::laws::network_laws;
use crate::part::{PART, Part};
use crate::rows::extend_row;
use sota_bank::RowBank;
use sota_network::{Arc, Network};
use sota_online::{Summer, Workspace};
use sota_units::{Grain, NoMemory, Steps};
use std::alloc::Global;
use std::sync::ledger::Ledger;

/// How many budgets in a row an arc allows, since it takes as many ticks.
fn block_in(arc: &Arc) -> usize
    ensures within { (1 ≤ result) × (result ≤ 64) }
    ensures takes { is_closed arc.now.time ≡ false → result ≤ least_tick arc.now.time }
{
    if arc.time.is_closed() {
        PART
    } else {
        PART.min(arc.time.least().get() as usize)
    }
}

/// At how many budgets in a row no value reads another: all open arcs take at least as many ticks.
fn block_of(network: &Network) -> usize
    ensures within { (1 ≤ result) × (result ≤ 64) }
    ensures takes { TakesAtLeast result network.now.arcs }
{
    let mut block = PART;
    for arc in network.arcs() {
        block = block.min(block_in(arc));
    }
    block
}

/// Extends the rows by the budgets of a block, the first that are not known.
fn fill_block<Z: Summer, M: Ledger>(
    block: &Block,
    rows: &mut RowBank<Grain>,
    broad: &mut [Option<Box<Z>>],
    part: &mut Part,
    workspace: &mut Workspace,
    products: &mut Steps<M>,
)
    requires block { IsBlock block.now }
    requires rows { AreRows block.now.ask.now block.now.from rows.old }
    requires summers { AreSummers Z.state rows.old block.now.network.now block.now.from
        workspace.old broad.old }
    ensures rows { AreRows block.now.ask.now (block.now.from + block.now.count) rows.new }
    ensures summers { AreSummers Z.state rows.new block.now.network.now block.now.from
        workspace.new broad.new }
{
    network_laws();
    for node in block.ask.visited {
        extend_row(block, *node, rows, broad, part, workspace, products);
    }
}

/// Extends the rows by the budgets from the first that is not known up to `to`, while a period
/// holds. Its broad arcs are summed by summers, which serve these budgets alone.
pub(crate) fn fill_period<'a, Z: Summer, M: Ledger>(
    alloc: Global,
    ask: &Ask<'a>,
    network: &'a Network,
    rows: &mut RowBank<Grain>,
    from: usize,
    to: usize,
    products: &mut Steps<M>,
) -> Result<(), NoMemory>
    requires ask { IsAsk ask.now }
    requires holds { PeriodHolds ask.now network.now from to }
    requires some { from < to }
    requires limit { to ≤ ask.now.budget + 1 }
    requires rows { AreRows ask.now from rows.old }
    ensures { OnOk result (AreRows ask.now to rows.new) }
{
    network_laws();
    let most = block_of(network);
    let (mut summers, places) = make_summers::<Z>(alloc, network, ask.needs, from)?;
    let mut workspace = Workspace::make(alloc, places)?;
    let broad = summers.as_mut_slice();
    let mut part = Part::new();
    let mut at = from;
    while at < to {
        let count = most.min(to - at);
        let block = Block {
            ask,
            network,
            from: at,
            count,
        };
        fill_block(&block, rows, broad, &mut part, &mut workspace, products);
        at += count;
    }
    Ok(())
}
