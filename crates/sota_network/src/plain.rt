// The plain planner. It makes every entry from its definition, budget by budget, and is the slow
// partner of the others.
ghost use Rattle.std.specs.Prelude.{◌≡◌, ◌*◌, ◌≤◌, ◌++◌, nat_lt, length, IfOk, OnOk};
ghost use Rattle.std.specs.List.{All};
ghost use Rattle.sota_units.specs.Rounding.{ONE};
ghost use Rattle.sota_units.specs.Limits.{NODE_LIMIT, BUDGET_LIMIT};
ghost use Rattle.sota_hist.specs.Time.{IsTime, total};
ghost use Rattle.sota_network.specs.Network.{IsNet, IsNode};
ghost use Rattle.sota_network.specs.Numbers.{listed};
ghost use Rattle.sota_network.specs.GridView.{IsGrid};
ghost use Rattle.sota_network.specs.Bests.{table_sum, bests_of, rounded, settled, chosen};

use crate::choice::Choice;
use crate::grid::{Grid, cell};
use crate::network::{Arc, Network};
use sota_units::{ArcId, Grain, Heft, NoMemory, NodeId, Scale};
use std::alloc::Global;

/// The grid of a network towards a node, at each budget from 0 up to the given one in ticks: at
/// most 65,535. Its work is linear in the pairs of all arcs times the budget.
pub fn plain_grid(
    alloc: Global,
    network: &Network,
    dest: NodeId,
    budget: u32,
) -> Result<Grid, NoMemory>
    requires dest { IsNode network.now dest }
    requires budget { budget ≤ BUDGET_LIMIT }
    ensures { IfOk result (λ grid. IsGrid grid network.now dest budget) }
{
    let nodes = network.nodes();
    let cells = (budget as usize + 1) * nodes as usize;
    let mut lower = Vec::with_capacity(alloc, cells)?;
    let mut upper = Vec::with_capacity(alloc, cells)?;
    let mut choices = Vec::with_capacity(alloc, cells)?;
    let mut scratch = vec![in alloc; Best::NONE; nodes as usize]?;
    let bests = scratch.as_mut_slice();
    for time in 0..budget + 1 {
        push_row(network, dest, time, Rounding::Down, &mut lower, bests)?;
        push_choices(&mut choices, bests, dest)?;
        push_row(network, dest, time, Rounding::Up, &mut upper, bests)?;
    }
    Ok(Grid {
        nodes,
        budget,
        lower,
        upper,
        choices,
    })
}

/// The greatest plain sum among the arcs that leave a node, and the first arc that has it: none
/// where it is 0.
#[derive(Clone, Copy)]
struct Best {
    sum: Heft,
    arc: Choice,
}

impl Best {
    /// No arc.
    const NONE: Best = Best {
        sum: Heft::ZERO,
        arc: Choice::NONE,
    };

    /// Whether a sum is above this one. Of equals the first arc stays.
    fn is_below(&self, sum: Heft) -> bool
        ensures { result ≡ nat_lt self.now.sum sum }
    {
        self.sum < sum
    }
}

/// Which way a sum is rounded to a value.
#[derive(Clone, Copy)]
enum Rounding {
    Down,
    Up,
}

/// Appends the values of all nodes at one budget to those at smaller budgets, and leaves in `bests`
/// what they rest on.
fn push_row(
    network: &Network,
    dest: NodeId,
    budget: u32,
    rounding: Rounding,
    values: &mut Vec<Grain>,
    bests: &mut [Best],
) -> Result<(), NoMemory>
    requires valid { IsNet network.now }
    requires full { length values.old.items ≡ budget * network.now.nodes }
    requires nodes { length bests.old ≡ network.now.nodes }
    requires within { network.now.nodes ≤ NODE_LIMIT }
    ensures bests { bests.new ≡ bests_of network.now.nodes network.now.arcs
        (table_sum values.old.items network.now.nodes budget) }
    ensures values { OnOk result (values.new.items
        ≡ values.old.items
        ++ listed (settled rounding network.now.scale dest bests.new) network.now.nodes) }
{
    let scale = network.scale();
    find_bests(network, values, budget, bests);
    push_values(values, bests, dest, scale, rounding)
}

/// For each node the best arc at a budget, over a table of the values at smaller budgets.
fn find_bests(network: &Network, values: &[Grain], budget: u32, bests: &mut [Best])
    requires valid { IsNet network.now }
    requires full { length values.now ≡ budget * network.now.nodes }
    requires nodes { length bests.old ≡ network.now.nodes }
    ensures bests { bests.new ≡ bests_of network.now.nodes network.now.arcs
        (table_sum values.now network.now.nodes budget) }
    ensures within { All (λ best. best.sum ≤ network.now.scale * ONE) bests.new }
{
    let nodes = network.nodes();
    bests.fill(Best::NONE);
    for (index, arc) in network.arcs().iter().enumerate() {
        let sum = arc_sum(arc, nodes, values, budget);
        let best = &mut bests[arc.tail.get() as usize - 1];
        if best.is_below(sum) {
            *best = Best {
                sum,
                arc: Choice::new(ArcId(index as u32 + 1)),
            };
        }
    }
}

/// The plain sum of an arc at a budget, over a table of the values at smaller budgets.
fn arc_sum(arc: &Arc, nodes: u32, values: &[Grain], budget: u32) -> Heft
    requires time { IsTime arc.now.time }
    requires head { (1 ≤ arc.now.head) × (arc.now.head ≤ nodes) }
    requires full { length values.now ≡ budget * nodes }
    ensures value { result ≡ table_sum values.now nodes budget arc.now }
    ensures within { result ≤ total arc.now.time * ONE }
{
    let mut sum = Heft::ZERO;
    for (tick, mass) in arc.time.pairs() {
        if tick.get() <= budget {
            let value = values[cell(nodes, arc.head, budget - tick.get())];
            sum = sum.plus(mass.times(value));
        }
    }
    sum
}

/// Appends the values of all nodes at one budget.
fn push_values(
    values: &mut Vec<Grain>,
    bests: &[Best],
    dest: NodeId,
    scale: Scale,
    rounding: Rounding,
) -> Result<(), NoMemory>
    requires within { All (λ best. best.sum ≤ scale * ONE) bests.now }
    requires nodes { length bests.now ≤ NODE_LIMIT }
    ensures { OnOk result (values.new.items
        ≡ values.old.items
        ++ listed (settled rounding scale dest bests.now) (length bests.now)) }
{
    for (index, best) in bests.iter().enumerate() {
        let value = if index as u32 + 1 == dest.get() {
            Grain::ONE
        } else {
            rounded(best.sum, scale, rounding)
        };
        values.push(value)?;
    }
    Ok(())
}

/// The value of a sum.
fn rounded(sum: Heft, scale: Scale, rounding: Rounding) -> Grain
    requires { sum ≤ scale * ONE }
    ensures { result ≡ rounded rounding scale sum }
{
    match rounding {
        Rounding::Down => sum.down(scale),
        Rounding::Up => sum.up(scale),
    }
}

/// Appends the choices of all nodes at one budget.
fn push_choices(choices: &mut Vec<Choice>, bests: &[Best], dest: NodeId) -> Result<(), NoMemory>
    requires { length bests.now ≤ NODE_LIMIT }
    ensures { OnOk result (choices.new.items
        ≡ choices.old.items ++ listed (chosen dest bests.now) (length bests.now)) }
{
    for (index, best) in bests.iter().enumerate() {
        let choice = if index as u32 + 1 == dest.get() {
            Choice::NONE
        } else {
            best.arc
        };
        choices.push(choice)?;
    }
    Ok(())
}
