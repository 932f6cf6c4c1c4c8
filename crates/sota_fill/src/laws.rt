// What is true of the definitions themselves. The functions do nothing: their contracts are the
// theorems.
ghost use Rattle.std.specs.Prelude.{ℕ, ◌≡◌};
ghost use Rattle.sota_network.specs.Network.{Net, IsNet};
ghost use Rattle.sota_kept.specs.NodeTables.{NodeTable, AreReady, IsExtent};
ghost use Rattle.sota_fill.specs.Laws.{Fillable};
ghost use Rattle.sota_fill.specs.Fills.{ReadsGrid};

use sota_kept::kept::{extents_fill, settled_entries};
use sota_network::laws::{
    arcs_by_number, arcs_one_by_one, choices_by_worth, entries_of_reads, grid_encloses,
    grid_recurs, sums_and_scores, values_rise,
};

/// The laws of networks and tables that are used here.
pub(crate) fn filling_laws()
    ensures { (net : Net) → IsNet net → Fillable net }
{
    arcs_by_number();
    arcs_one_by_one();
    choices_by_worth();
    entries_of_reads();
    grid_encloses();
    grid_recurs();
    sums_and_scores();
    values_rise();
    settled_entries();
    extents_fill();
}

/// What an extent of tables that are ready reads at the heads of its arcs is the grid's.
pub fn extents_read_the_grid()
    ensures { (net : Net) (dest i to : ℕ) (tables : ℕ → NodeTable) → IsNet net
        → AreReady net dest tables → IsExtent net dest tables i to
        → ReadsGrid net dest i to tables }
{
    filling_laws();
}
