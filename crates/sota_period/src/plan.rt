// Planning with departure periods.
ghost use Rattle.std.specs.Prelude.{ℕ, ◌≡◌, ◌+◌, ◌*◌, ◌≤◌, ◌∷◌, [], IfOk, OnOk};
ghost use Rattle.sota_units.specs.Memory.{Answers};
ghost use Rattle.sota_network.specs.Network.{Net, IsNode};
ghost use Rattle.sota_network.specs.Grid.{lo, hi, choice};
ghost use Rattle.sota_sums.specs.declared.bound.Bound.TheVariants.{Lower};
ghost use Rattle.sota_period.specs.Periods.{timed_net, first_net};
ghost use Rattle.sota_period.specs.Trees.{TimedEncloses};
ghost use Rattle.sota_period.specs.Grid.{tchoice};
ghost use Rattle.sota_period.specs.Answers.{timed_result, is_shortage};
ghost use Rattle.sota_period.specs.Rows.{AreRows, IsAsk, asked_need, asked_net};
ghost use Rattle.sota_period.specs.Rows.{asked_value};

use crate::ask::Ask;
use crate::bests::choose;
use crate::blocks::fill_period;
use crate::cells::find_timed_fault;
use crate::fault::TimedFault;
use crate::laws::{network_laws, one_period, timed_grid_encloses};
use crate::needs::{find_needs, find_visited};
use crate::table::row_of;
use crate::timed::Timed;
use sota_bank::RowBank;
use sota_online::Summer;
use sota_sums::Bound;
use sota_units::{ArcId, Grain, NoMemory, NodeId, Steps};
use std::alloc::Global;
use std::sync::ledger::Ledger;

/// Two bounds of the greatest on-time probability, and the arc to take first.
#[derive(Clone, Copy, Debug, PartialEq, Eq)]
pub struct TimedAnswer {
    pub lower: Grain,
    pub upper: Grain,
    pub next: Option<ArcId>,
}

/// Brackets the greatest chance to be at the destination within the budget, in ticks, where the
/// clock shows the deadline when the budget ends, and finds the arc to take first: none where no
/// arc is worth anything.
///
/// NoOrigin, NoDest, Budget, TimedCells and TimedBroad come exactly where they say, the first of
/// them that stands.
///
/// Broad arcs are summed by summers, two for each arc and period. What they multiply is counted,
/// and each value that is kept. It takes time linear in nodes and arcs, and beyond it time and
/// memory for the values alone of the nodes that are reached in time, at the budgets that can be
/// left there.
pub fn plan_timed<Z: Summer, M: Ledger>(
    alloc: Global,
    timed: &Timed,
    origin: u32,
    dest: u32,
    budget: u32,
    deadline: u32,
    products: &mut Steps<M>,
) -> Result<TimedAnswer, TimedFault>
    requires { budget ≤ deadline }
    ensures value { Answers is_shortage result
        (timed_result timed.now origin dest budget deadline) }

    // What `value` says of an answer, in the words of trees: the two values enclose the greatest
    // probability, and are near each other.
    ensures encloses { IfOk result (λ answer. TimedEncloses (timed_net timed.now deadline) dest
        origin budget answer.lower answer.upper) }
    ensures order { IfOk result (λ answer. answer.lower ≤ answer.upper) }
    ensures gap { IfOk result (λ answer. answer.upper ≤ answer.lower + 2 * budget) }

    // With one period it is the plain answer.
    ensures plain { IfOk result (λ answer. (net : Net) → timed.now ≡ (0, net) ∷ []
        → (answer.lower ≡ lo net dest origin budget) × (answer.upper ≡ hi net dest origin budget)
        × (answer.next ≡ choice net dest origin budget)) }
{
    timed_grid_encloses();
    one_period();
    let (origin, dest) = (NodeId(origin), NodeId(dest));
    if let Some(fault) = find_timed_fault(timed, origin, dest, budget) {
        return Err(fault);
    }
    let needs = find_needs(alloc, timed, origin, dest, budget)?;
    let visited = find_visited(alloc, &needs, dest)?;
    let ask = Ask {
        timed,
        dest,
        budget,
        deadline,
        bound: Bound::Lower,
        needs: &needs,
        visited: &visited,
    };
    let (lower, next) = plan_lower::<Z, M>(alloc, &ask, origin, products)?;
    let ask = Ask {
        bound: Bound::Upper,
        ..ask
    };
    let upper = plan_bound::<Z, M>(alloc, &ask, origin, products)?;
    Ok(TimedAnswer { lower, upper, next })
}

/// The lower value of an origin and the arc to take there.
fn plan_lower<Z: Summer, M: Ledger>(
    alloc: Global,
    ask: &Ask,
    origin: NodeId,
    products: &mut Steps<M>,
) -> Result<(Grain, Option<ArcId>), NoMemory>
    requires ask { IsAsk ask.now }
    requires origin { IsNode (first_net ask.now.timed.now) origin }
    requires need { asked_need ask.now origin ≡ ask.now.budget + 1 }
    requires bound { ask.now.bound ≡ Lower }
    ensures value { IfOk result (λ found.
        found.0 ≡ asked_value ask.now origin ask.now.budget) }
    ensures next { IfOk result (λ found.
        found.1 ≡ tchoice (asked_net ask.now) ask.now.dest origin ask.now.budget) }
{
    let rows = fill_rows::<Z, M>(alloc, ask, products)?;
    let next = find_next(ask, origin, &rows);
    Ok((value_at(ask, origin, &rows), next))
}

/// The value of an origin.
fn plan_bound<Z: Summer, M: Ledger>(
    alloc: Global,
    ask: &Ask,
    origin: NodeId,
    products: &mut Steps<M>,
) -> Result<Grain, NoMemory>
    requires ask { IsAsk ask.now }
    requires origin { IsNode (first_net ask.now.timed.now) origin }
    requires need { asked_need ask.now origin ≡ ask.now.budget + 1 }
    ensures { IfOk result (λ value. value ≡ asked_value ask.now origin ask.now.budget) }
{
    let rows = fill_rows::<Z, M>(alloc, ask, products)?;
    Ok(value_at(ask, origin, &rows))
}

/// The value of a node at the whole budget.
fn value_at(ask: &Ask, node: NodeId, rows: &RowBank<Grain>) -> Grain
    requires ask { IsAsk ask.now }
    requires node { IsNode (first_net ask.now.timed.now) node }
    requires need { asked_need ask.now node ≡ ask.now.budget + 1 }
    requires rows { AreRows ask.now (ask.now.budget + 1) rows.now }
    ensures { result ≡ asked_value ask.now node ask.now.budget }
{
    row_of(rows, node)[ask.budget as usize]
}

/// The arc to take from a node with the whole budget.
fn find_next(ask: &Ask, node: NodeId, rows: &RowBank<Grain>) -> Option<ArcId>
    requires ask { IsAsk ask.now }
    requires node { IsNode (first_net ask.now.timed.now) node }
    requires need { asked_need ask.now node ≡ ask.now.budget + 1 }
    requires bound { ask.now.bound ≡ Lower }
    requires rows { AreRows ask.now (ask.now.budget + 1) rows.now }
    ensures { result ≡ tchoice (asked_net ask.now) ask.now.dest node ask.now.budget }
{
    network_laws();
    if node == ask.dest {
        return None;
    }
    let place = ask.timed.find_period(ask.deadline - ask.budget);
    let network = &ask.timed.periods()[place].1;
    choose(network, node, rows, ask.budget as usize)
}

/// The rows of all nodes, by rising budget.
fn fill_rows<Z: Summer, M: Ledger>(
    alloc: Global,
    ask: &Ask,
    products: &mut Steps<M>,
) -> Result<RowBank<Grain>, NoMemory>
    requires { IsAsk ask.now }
    ensures { IfOk result (λ rows. AreRows ask.now (ask.now.budget + 1) rows) }
{
    let mut rows = first_rows(alloc, ask, products)?;
    fill_budgets::<Z, M>(alloc, ask, &mut rows, products)?;
    Ok(rows)
}

/// The row of the destination, where all values are one, and empty rows of the other nodes.
fn first_rows<M: Ledger>(
    alloc: Global,
    ask: &Ask,
    products: &mut Steps<M>,
) -> Result<RowBank<Grain>, NoMemory>
    requires { IsAsk ask.now }
    ensures { IfOk result (λ rows. AreRows ask.now 0 rows) }
{
    network_laws();
    let mut rows = RowBank::new(alloc, ask.needs)?;
    let dest = ask.dest.get() as usize - 1;
    let ones = vec![in alloc; Grain::ONE; ask.needs[dest] as usize]?;
    rows.append(dest, &ones, products);
    Ok(rows)
}

/// Extends the rows to all budgets, period by period.
fn fill_budgets<Z: Summer, M: Ledger>(
    alloc: Global,
    ask: &Ask,
    rows: &mut RowBank<Grain>,
    products: &mut Steps<M>,
) -> Result<(), NoMemory>
    requires ask { IsAsk ask.now }
    requires rows { AreRows ask.now 0 rows.old }
    ensures { OnOk result (AreRows ask.now (ask.now.budget + 1) rows.new) }
{
    let periods = ask.timed.periods();
    let width = ask.budget as usize + 1;
    let mut from = 0;
    while from < width {
        let place = ask.timed.find_period(ask.deadline - from as u32);
        let period = &periods[place];
        let to = width.min((ask.deadline - period.0) as usize + 1);
        fill_period::<Z, M>(alloc, ask, &period.1, rows, from, to, products)?;
        from = to;
    }
    Ok(())
}
