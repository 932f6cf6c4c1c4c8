//! What is true of the definitions themselves. The functions do nothing: their contracts are the
//! theorems.
ghost use Rattle.std.specs.Prelude.{ℕ, ◌≡◌, ◌≤◌, None};
ghost use Rattle.sota_units.specs.Limits.{BUDGET_LIMIT};
ghost use Rattle.sota_network.specs.Network.{Net, IsNet, IsNode};
ghost use Rattle.sota_network.specs.Region.{table_cells};
ghost use Rattle.sota_kept.specs.Ticks.{least_to};
ghost use Rattle.sota_kept.specs.States.{State, front_of, base_of, prepared_state, after_ask};
ghost use Rattle.sota_kept.specs.States.{missing};
ghost use Rattle.sota_bounds.specs.Faults.{TABLE_LIMIT};

use sota_kept::laws::least_ticks;
use sota_network::laws::{lists_by_number, region_by_least_times, regions_have_least_times};

/// What an ask misses. Tables without a destination have no entry once they are prepared for it,
/// and begin at the least times, so it misses exactly its table cells. Right after itself it misses
/// nothing, whatever was kept before, unless it is too large to plan for.
pub fn asks_miss()
    ensures front { (net : Net) (origin dest last i : ℕ) (state : State) → state.dest ≡ None
        → IsNode net i → front_of (prepared_state net origin dest last state) i ≡ 0 }
    ensures base { (net : Net) (origin dest last i : ℕ) (state : State) → state.dest ≡ None
        → IsNode net i
        → base_of (prepared_state net origin dest last state) i ≡ least_to net dest i }
    ensures cells { (net : Net) (origin dest last : ℕ) (state : State) → IsNet net
        → last ≤ BUDGET_LIMIT → state.dest ≡ None
        → missing net origin dest last state ≡ table_cells net origin dest last }
    ensures nothing { (net : Net) (origin dest last : ℕ) (state : State) → IsNet net
        → last ≤ BUDGET_LIMIT → table_cells net origin dest last ≤ TABLE_LIMIT
        → missing net origin dest last (after_ask net origin dest last state) ≡ 0 }
{
    least_ticks();
    lists_by_number();
    region_by_least_times();
    regions_have_least_times();
}
