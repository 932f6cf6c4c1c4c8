// What is true of the definitions themselves. The functions do nothing: their contracts are the
// theorems.
ghost use Rattle.std.specs.Prelude.{ℕ, ◌≡◌, ◌+◌, ◌*◌, ◌≤◌, List, [], ◌∷◌, Some};
ghost use Rattle.sota_units.specs.Rounding.{ONE};
ghost use Rattle.sota_network.specs.Network.{Net, IsNet};
ghost use Rattle.sota_network.specs.Grid.{lo, hi, choice};
ghost use Rattle.sota_period.specs.Periods.{ArePeriods, timed_net, scale_differs};
ghost use Rattle.sota_period.specs.Examples.{hours, two_scales};
ghost use Rattle.sota_period.specs.Trees.{TimedEncloses};
ghost use Rattle.sota_period.specs.Grid.{tlo, thi, tchoice};
ghost use Rattle.sota_period.specs.Laws.{NetworkLaws};

use sota_network::laws::{
    arcs_by_number, choices_by_worth, grid_recurs, scores_by_pairs, steps_settle, sums_and_scores,
};

/// What the crates below state of networks and sums.
pub(crate) fn network_laws()
    ensures { NetworkLaws }
{
    sums_and_scores();
    scores_by_pairs();
    steps_settle();
    arcs_by_number();
    choices_by_worth();
}

/// The two values of the grid enclose the greatest on-time probability of all timed trees, and they
/// differ by at most two units a tick.
pub fn timed_grid_encloses()
    ensures encloses { (periods : List (ℕ × Net)) (deadline dest i t : ℕ) → ArePeriods periods
        → TimedEncloses (timed_net periods deadline) dest i t
        (tlo (timed_net periods deadline) dest i t) (thi (timed_net periods deadline) dest i t) }
    ensures order { (periods : List (ℕ × Net)) (deadline dest i t : ℕ) → ArePeriods periods
        → tlo (timed_net periods deadline) dest i t ≤ thi (timed_net periods deadline) dest i t }
    ensures gap { (periods : List (ℕ × Net)) (deadline dest i t : ℕ) → ArePeriods periods
        → thi (timed_net periods deadline) dest i t
        ≤ tlo (timed_net periods deadline) dest i t + 2 * t }
    ensures whole { (periods : List (ℕ × Net)) (deadline dest i t : ℕ) → ArePeriods periods
        → thi (timed_net periods deadline) dest i t ≤ ONE }
{
    network_laws();
}

/// With one period the values and the choice are those of its network.
pub fn one_period()
    ensures lower { (net : Net) (deadline dest i t : ℕ) → IsNet net
        → tlo (timed_net ((0, net) ∷ []) deadline) dest i t ≡ lo net dest i t }
    ensures upper { (net : Net) (deadline dest i t : ℕ) → IsNet net
        → thi (timed_net ((0, net) ∷ []) deadline) dest i t ≡ hi net dest i t }
    ensures choice { (net : Net) (deadline dest i t : ℕ) → IsNet net
        → tchoice (timed_net ((0, net) ∷ []) deadline) dest i t ≡ choice net dest i t }
{
    network_laws();
    grid_recurs();
}

/// The definitions, computed on a small network at two hours.
pub fn worked_examples()
    // Who leaves at 7 takes the second road at 8, when it is quick. Who keeps to the times of the
    // departure has the chance 3/4.
    ensures late { (tlo (timed_net hours 10) 3 1 3 ≡ ONE) × (thi (timed_net hours 10) 3 1 3 ≡ ONE)
        × (tchoice (timed_net hours 10) 3 1 3 ≡ Some 1) }
    ensures early { (tlo (timed_net hours 7) 3 1 3 ≡ 750000000000000000)
        × (thi (timed_net hours 7) 3 1 3 ≡ 750000000000000000)
        × (tchoice (timed_net hours 7) 3 1 3 ≡ Some 3) }

    // Places are counted from 0.
    ensures differs { scale_differs two_scales ≡ Some 1 }
{}
