// The laws of networks that planning rests on, in one form.
ghost use Rattle.std.specs.Prelude.{◌≤◌};
ghost use Rattle.sota_units.specs.Limits.{BUDGET_LIMIT};
ghost use Rattle.sota_network.specs.Network.{Net, IsNet};
ghost use Rattle.sota_bounds.specs.Regions.{IsRegion};
ghost use Rattle.sota_bounds.specs.declared.ask.AskRegion.{AskRegion};
ghost use Rattle.sota_plan.specs.Laws.{RegionLaws};

use sota_kept::kept::needs_are_met;
use sota_kept::laws::least_ticks;
use sota_network::laws::{
    arcs_by_number, grid_encloses, lists_by_number, reaches_by_walks, region_by_least_times,
};
use sota_order::laws::extents_of_tables;

/// What is used of the region of an ask.
pub(crate) fn region_laws()
    ensures { (net : Net) (region : AskRegion) → IsNet net
        → IsRegion region net region.origin region.dest region.budget
        → region.budget ≤ BUDGET_LIMIT → RegionLaws net region }
{
    arcs_by_number();
    extents_of_tables();
    grid_encloses();
    least_ticks();
    lists_by_number();
    needs_are_met();
    reaches_by_walks();
    region_by_least_times();
}
