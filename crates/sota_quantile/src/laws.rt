//! What is true of the definitions themselves. The functions do nothing: their contracts are the
//! theorems.
ghost use Rattle.std.specs.Prelude.{ℕ, ◌≡◌, ◌<◌, ◌≤◌, None, Some};
ghost use Rattle.sota_units.specs.Rounding.{ONE};
ghost use Rattle.sota_network.specs.Network.{Net, IsNet};
ghost use Rattle.sota_network.specs.Grid.{lo, hi};
ghost use Rattle.sota_network.specs.Examples.{triangle, chain};
ghost use Rattle.sota_quantile.specs.Needs.{ReachesWith, least_budget};

use sota_network::laws::{grid_encloses, sums_and_scores};

/// Who reaches the destination with some chance within a budget does so within each greater one.
pub fn more_time_reaches()
    ensures { (net : Net) (dest i c t u : ℕ) → t ≤ u → ReachesWith net dest i c t
        → ReachesWith net dest i c u }
{
    sums_and_scores();
}

/// The least budgets at which the two values of the grid are at least c, by decision trees: none
/// has c within less time than the upper value asks for, and one has it within what the lower value
/// asks for.
pub fn needs_by_trees()
    ensures none { (net : Net) (dest i c most t : ℕ) → IsNet net
        → least_budget (hi net dest i) c most ≡ None → t ≤ most
        → ReachesWith net dest i c t → ⊥ }
    ensures below { (net : Net) (dest i c most a t : ℕ) → IsNet net
        → least_budget (hi net dest i) c most ≡ Some a → t < a
        → ReachesWith net dest i c t → ⊥ }
    ensures within { (net : Net) (dest i c most b : ℕ) → IsNet net
        → least_budget (lo net dest i) c most ≡ Some b → (b ≤ most) × ReachesWith net dest i c b }
{
    grid_encloses();
}

/// The definitions, computed on small networks.
pub fn worked_needs()
    ensures triangle { (least_budget (hi triangle 3 1) 750000000000000000 9 ≡ Some 3)
        × (least_budget (lo triangle 3 1) 750000000000000000 9 ≡ Some 3) }

    // The exact probability within two ticks is 1/9, which is between the two values.
    ensures chain { (least_budget (hi chain 3 1) 111111111111111112 10 ≡ Some 2)
        × (least_budget (lo chain 3 1) 111111111111111112 10 ≡ Some 10)
        × (least_budget (lo chain 3 1) 111111111111111112 9 ≡ None) }

    // No road leads back, and who stands at the destination needs no time.
    ensures ends { (least_budget (hi triangle 1 3) 1 9 ≡ None)
        × (least_budget (lo triangle 3 3) ONE 0 ≡ Some 0) }
{}
