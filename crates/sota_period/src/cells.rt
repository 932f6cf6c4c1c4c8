// Whether an ask with departure periods is refused.
ghost use Rattle.std.specs.Prelude.{ℕ, ◌≡◌, ◌+◌, ◌*◌, ◌≤◌, length, IfNone};
ghost use Rattle.std.specs.List.{All, sum_by};
ghost use Rattle.sota_units.specs.Limits.{BUDGET_LIMIT};
ghost use Rattle.sota_network.specs.Network.{IsNode};
ghost use Rattle.sota_network.specs.Region.{broad_at};
ghost use Rattle.sota_period.specs.Periods.{ArePeriods, first_net, PERIOD_LIMIT};
ghost use Rattle.sota_period.specs.Answers.{timed_fault, timed_broad, timed_cells};
ghost use Rattle.sota_period.specs.Answers.{timed_cells_fault, TIMED_LIMIT};

use crate::fault::TimedFault;
use crate::timed::Timed;
use sota_network::{Network, broad_at};
use sota_units::{BUDGET_LIMIT, NodeId};

/// The most timed cells that are planned for.
const TIMED_LIMIT: u64 = 60_000_000;

/// The most timed broad cells that are planned for.
const TIMED_BROAD_LIMIT: u64 = 40_000_000;

/// The first fault of an ask.
pub(crate) fn find_timed_fault(
    timed: &Timed,
    origin: NodeId,
    dest: NodeId,
    budget: u32,
) -> Option<TimedFault>
    ensures value { result ≡ timed_fault timed.now origin dest budget }
    ensures origin { IfNone result (IsNode (first_net timed.now) origin) }
    ensures dest { IfNone result (IsNode (first_net timed.now) dest) }
    ensures budget { IfNone result (budget ≤ BUDGET_LIMIT) }
    ensures cells { IfNone result
        (timed_cells (first_net timed.now).nodes budget ≤ TIMED_LIMIT) }
    ensures valid { ArePeriods timed.now }
{
    let nodes = timed.nodes();
    if !origin.is_within(nodes) {
        Some(TimedFault::NoOrigin)
    } else if !dest.is_within(nodes) {
        Some(TimedFault::NoDest)
    } else if budget > BUDGET_LIMIT {
        Some(TimedFault::Budget)
    } else {
        find_cells_fault(timed, nodes, budget)
    }
}

/// Too many timed cells, or else too many timed broad cells.
fn find_cells_fault(timed: &Timed, nodes: u32, budget: u32) -> Option<TimedFault>
    requires nodes { nodes ≡ (first_net timed.now).nodes }
    requires budget { budget ≤ BUDGET_LIMIT }
    ensures value { result ≡ timed_cells_fault timed.now budget }
    ensures cells { IfNone result (timed_cells nodes budget ≤ TIMED_LIMIT) }
{
    let cells = u64::from(nodes) * (u64::from(budget) + 1);
    if cells > TIMED_LIMIT {
        return Some(TimedFault::TimedCells(cells));
    }
    let broad = timed_broad(timed.periods(), budget);
    if broad > TIMED_BROAD_LIMIT {
        Some(TimedFault::TimedBroad(broad))
    } else {
        None
    }
}

/// What the arcs of all periods add to the timed broad cells.
fn timed_broad(periods: &[(u32, Network)], budget: u32) -> u64
    requires few { length periods.now ≤ PERIOD_LIMIT }
    requires budget { budget ≤ BUDGET_LIMIT }
    ensures { result ≡ timed_broad periods.now budget }
{
    let mut cells = 0;
    for period in periods {
        cells += broad_in(&period.1, budget);
    }
    cells
}

/// What the arcs of a network add to them.
fn broad_in(network: &Network, budget: u32) -> u64
    requires { budget ≤ BUDGET_LIMIT }
    ensures value { result ≡ sum_by (broad_at budget (budget + 1)) network.now.arcs }
    ensures within { result ≤ 4000000 * 131072 }
{
    let mut cells = 0;
    for arc in network.arcs() {
        cells += broad_at(arc, u64::from(budget) + 1, budget);
    }
    cells
}
