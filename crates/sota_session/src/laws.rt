//! What is true of the definitions, apart from any code. A law is a function without a body of its
//! own, whose contract is its statement.
ghost use Rattle.std.specs.Prelude.{ℕ, ◌≡◌, ◌*◌, ◌≤◌, [], Option, None};
ghost use Rattle.sota_units.specs.Limits.{BUDGET_LIMIT};
ghost use Rattle.sota_network.specs.Network.{Net, IsNet, IsNode};
ghost use Rattle.sota_network.specs.Walks.{IsLeastTime};
ghost use Rattle.sota_network.specs.Region.{table_cells};
ghost use Rattle.sota_network.specs.Examples.{triangle};
ghost use Rattle.sota_kept.specs.States.{State, first_state};
ghost use Rattle.sota_bounds.specs.Faults.{TABLE_LIMIT};
ghost use Rattle.sota_check.specs.Planned.{IsPlanFile};
ghost use Rattle.sota_check.specs.PlannedBracket.{IsPlannedBracket};
ghost use Rattle.sota_session.specs.Asks.{ask_fault};
ghost use Rattle.sota_session.specs.Plans.{plan_table};
ghost use Rattle.sota_session.specs.Brackets.{plan_bracket};
ghost use Rattle.sota_session.specs.State.{state_after, state_edited, pushes_for};
ghost use Rattle.sota_session.specs.Worked.{within_ticks, with_fronts, certain, later};
ghost use Rattle.sota_session.specs.Worked.{surer, slower, barred};
ghost use Rattle.sota_session.specs.declared.ask.Ask.{Ask};

use sota_bounds::laws::asks_miss;
use sota_kept::laws::least_ticks;
use sota_network::laws::{region_by_least_times, regions_have_least_times};

/// The policy of an ask has a row for each node with a pair in the region, from its least time to
/// the destination up to what its least time from the origin leaves of the budget.
pub fn plans_by_least_times()
    ensures { (net : Net) (ask : Ask) → IsNet net
        → IsPlanFile net ask.origin ask.dest ask.budget (plan_table net ask) }
{
    region_by_least_times();
    regions_have_least_times();
}

/// The bracket of an ask has the least times to the destination as first budgets, and the grid's
/// entries exactly in the region. That each node has a least time or none is what a search finds.
pub fn brackets_by_least_times()
    ensures { (net : Net) (ask : Ask) → IsNet net → ask.budget ≤ BUDGET_LIMIT
        → ((i : ℕ) → IsNode net i → (to : Option ℕ) × IsLeastTime net ask.dest i ask.dest to)
        → IsPlannedBracket net ask.origin ask.dest ask.budget (plan_bracket net ask) }
{
    least_ticks();
    region_by_least_times();
    regions_have_least_times();
}

/// An ask that is not refused has no more table cells than are planned for.
pub fn accepted_asks_fit()
    ensures { (net : Net) (ask : Ask) → ask_fault net ask ≡ None
        → table_cells net ask.origin ask.dest ask.budget ≤ TABLE_LIMIT }
{}

/// An ask that is not refused and finds nothing kept pushes three times its table cells. Right
/// after itself it pushes nothing, whatever was kept before.
pub fn asks_push_their_cells()
    ensures first { (net : Net) (ask : Ask) → IsNet net → ask_fault net ask ≡ None
        → pushes_for net ask (first_state net.nodes)
        ≡ 3 * table_cells net ask.origin ask.dest ask.budget }
    ensures again { (net : Net) (ask : Ask) (state : State) → IsNet net → ask_fault net ask ≡ None
        → pushes_for net ask (state_after net ask state) ≡ 0 }
{
    asks_miss();
}

/// The definitions, computed on the triangle: what asks and edits leave, and the pushes of each
/// ask.
pub fn worked_sessions()
    // A longer budget adds what is missing, and a shorter one nothing.
    ensures asks { (pushes_for triangle (within_ticks 3) (first_state 3) ≡ 12)
        × (state_after triangle (within_ticks 3) (first_state 3) ≡ with_fronts 4 3)
        × (pushes_for triangle (within_ticks 9) (with_fronts 4 3) ≡ 36)
        × (state_after triangle (within_ticks 9) (with_fronts 4 3) ≡ with_fronts 10 9)
        × (pushes_for triangle (within_ticks 4) (with_fronts 10 9) ≡ 0)
        × (state_after triangle (within_ticks 4) (with_fronts 10 9) ≡ with_fronts 10 9) }
    ensures at_once { (pushes_for triangle (within_ticks 9) (first_state 3) ≡ 48)
        × (state_after triangle (within_ticks 9) (first_state 3) ≡ with_fronts 10 9) }

    // An edit of the second arc takes the entries of both nodes.
    ensures second { (pushes_for triangle (within_ticks 2) (first_state 3) ≡ 6)
        × (state_after triangle (within_ticks 2) (first_state 3) ≡ with_fronts 3 2)
        × (state_edited triangle 2 certain (with_fronts 3 2) ≡ with_fronts 2 1)
        × (pushes_for surer (within_ticks 2) (with_fronts 2 1) ≡ 6)
        × (state_after surer (within_ticks 2) (with_fronts 2 1) ≡ with_fronts 3 2) }

    // One of the third arc at its second tick takes those of node 1 from there on, and where it is
    // closed from its first tick on.
    ensures third { (state_edited triangle 3 later (with_fronts 10 9) ≡ with_fronts 5 9)
        × (pushes_for slower (within_ticks 5) (with_fronts 5 9) ≡ 3)
        × (state_after slower (within_ticks 5) (with_fronts 5 9) ≡ with_fronts 6 9) }
    ensures closed { (state_edited triangle 3 [] (with_fronts 10 9) ≡ with_fronts 3 9)
        × (pushes_for barred (within_ticks 9) (with_fronts 3 9) ≡ 21)
        × (state_after barred (within_ticks 9) (with_fronts 3 9) ≡ with_fronts 10 9) }
{}
