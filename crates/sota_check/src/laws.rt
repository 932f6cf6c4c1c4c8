// What is true of the definitions themselves. The functions do nothing but name the laws that they
// rest on: their contracts are the theorems.
ghost use Rattle.std.specs.Prelude.{ℕ, ◌≡◌, ◌*◌, ◌^◌, ◌≤◌, None, Some};
ghost use Rattle.sota_units.specs.Rounding.{ONE};
ghost use Rattle.sota_network.specs.Network.{Net, IsNet};
ghost use Rattle.sota_network.specs.Grid.{lo, hi};
ghost use Rattle.sota_network.specs.Trees.{Encloses, Fits, follow, score};
ghost use Rattle.sota_network.specs.Examples.{triangle};
ghost use Rattle.sota_polfile.specs.Table.{Table, IsTable};
ghost use Rattle.sota_polfile.specs.Bracket.{Bracket, IsBracket};
ghost use Rattle.sota_check.specs.Bracketed.{lower, upper, bracket_rule, IsBracketed};
ghost use Rattle.sota_check.specs.BracketRejected.{bracket_rejection};
ghost use Rattle.sota_check.specs.PlannedBracket.{IsPlannedBracket};
ghost use Rattle.sota_check.specs.Certified.{value, rule, IsCertified};
ghost use Rattle.sota_check.specs.Rejected.{rejection};
ghost use Rattle.sota_check.specs.Examples.{triangle_policy};
ghost use Rattle.sota_check.specs.declared.verdict.Rejection.TheVariants.{Value};
ghost use Rattle.sota_check.specs.Laws.{GridLaws};
ghost use Rattle.sota_check.specs.Planned.{IsPlannedPolicy, AreGridRows, IsPlanFile, ask_head};

use sota_network::laws::{
    arcs_by_number, choices_by_worth, covering_values, entries_of_reads, grid_encloses,
    grid_recurs, reaches_by_walks, region_by_least_times, region_closes, sound_values,
    sums_and_scores,
};
use sota_polfile::entries_stand_in_rows;

/// The laws of networks that a planner's file rests on.
fn grid_laws()
    ensures { (net : Net) (origin dest last : ℕ) → IsNet net → GridLaws net origin dest last }
{
    grid_recurs();
    grid_encloses();
    reaches_by_walks();
    entries_of_reads();
    choices_by_worth();
    region_closes();
}

/// The tree of a policy that holds attains its value at every node and budget, and no value is more
/// than one whole.
pub fn certified_attains()
    ensures attains { (net : Net) (table : Table) (i t : ℕ) → IsNet net → IsCertified net table
        → value table i t * net.scale ^ t ≤ ONE * score net table.head.dest i t
        (follow net (rule table) table.head.dest i t) }
    ensures whole { (net : Net) (table : Table) (i t : ℕ) → IsNet net → IsCertified net table
        → value table i t ≤ ONE }
{
    sound_values();
}

/// A policy without a cause to be rejected holds, and one that holds has none.
pub fn passed_policies_hold()
    ensures holds { (net : Net) (table : Table) → rejection net table ≡ None
        → IsCertified net table }
    ensures passes { (net : Net) (table : Table) → IsTable table → IsCertified net table
        → rejection net table ≡ None }
{
    entries_stand_in_rows();
}

/// The planner's file, and rows of the grid's entries, make the planner's policy.
pub fn rows_make_plans()
    ensures file { (net : Net) (origin dest last : ℕ) (table : Table) → IsNet net → IsTable table
        → IsPlanFile net origin dest last table → IsPlannedPolicy net origin dest last table }
    ensures rows { (net : Net) (origin dest last : ℕ) (table : Table) → IsTable table
        → table.head ≡ ask_head net origin dest last
        → AreGridRows net origin dest last table.rows → IsPlannedPolicy net origin dest last table }
{
    entries_stand_in_rows();
    region_by_least_times();
}

/// The planner's own policy holds, and the value that it names is the lower value of its ask.
pub fn plans_hold()
    ensures certified { (net : Net) (origin dest last : ℕ) (table : Table) → IsNet net
        → IsPlannedPolicy net origin dest last table → IsCertified net table }
    ensures bound { (net : Net) (origin dest last : ℕ) (table : Table) → IsNet net
        → IsPlannedPolicy net origin dest last table
        → value table origin last ≡ lo net dest origin last }
{
    grid_laws();
}

/// The two sides of a bracket table that holds enclose the greatest on-time probability of all
/// decision trees at every node and budget, and the tree of its arcs attains the lower one.
pub fn bracketed_encloses()
    ensures encloses { (net : Net) (table : Bracket) (i t : ℕ) → IsNet net → IsBracket table
        → IsBracketed net table
        → Encloses net table.head.dest i t (lower table i t) (upper table i t) }
    ensures attains { (net : Net) (table : Bracket) (i t : ℕ) → IsNet net → IsBracketed net table
        → lower table i t * net.scale ^ t ≤ ONE * score net table.head.dest i t
        (follow net (bracket_rule table) table.head.dest i t) }
    ensures fits { (net : Net) (table : Bracket) (i t : ℕ) → IsNet net
        → Fits net i (follow net (bracket_rule table) table.head.dest i t) }
    ensures whole { (net : Net) (table : Bracket) (i t : ℕ) → IsNet net → IsBracketed net table
        → (lower table i t ≤ ONE) × (upper table i t ≤ ONE) }
{
    arcs_by_number();
    grid_encloses();
    sound_values();
    sums_and_scores();
    covering_values();
}

/// A bracket table without a cause to be rejected holds, and one that holds has none.
pub fn passed_brackets_hold()
    ensures holds { (net : Net) (table : Bracket) → bracket_rejection net table ≡ None
        → IsBracketed net table }
    ensures passes { (net : Net) (table : Bracket) → IsBracketed net table
        → bracket_rejection net table ≡ None }
{}

/// The planner's own bracket holds, and the bounds that it names are the two values of its ask.
pub fn planned_brackets_hold()
    ensures bracketed { (net : Net) (origin dest last : ℕ) (table : Bracket) → IsNet net
        → IsBracket table → IsPlannedBracket net origin dest last table → IsBracketed net table }
    ensures lower { (net : Net) (origin dest last : ℕ) (table : Bracket) → IsNet net
        → IsBracket table → IsPlannedBracket net origin dest last table
        → lower table origin last ≡ lo net dest origin last }
    ensures upper { (net : Net) (origin dest last : ℕ) (table : Bracket) → IsNet net
        → IsBracket table → IsPlannedBracket net origin dest last table
        → upper table origin last ≡ hi net dest origin last }
{
    arcs_by_number();
    grid_recurs();
    grid_encloses();
    entries_of_reads();
    choices_by_worth();
    sums_and_scores();
    grid_laws();
}

/// The definitions, computed for a policy of the triangle from 1 to 3 in 3 ticks, as it is and with
/// one value raised by one unit.
pub fn worked_examples()
    ensures accepted { (rejection triangle (triangle_policy 500000000000000000) ≡ None)
        × (value (triangle_policy 500000000000000000) 1 3 ≡ 750000000000000000) }
    ensures raised { rejection triangle (triangle_policy 500000000000000001) ≡ Some (Value 2 1) }
{}
