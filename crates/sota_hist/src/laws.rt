// What is true of the definitions themselves. The functions do nothing: their contracts are the
// theorems.
ghost use Rattle.std.specs.Prelude.{ℕ, ◌≡◌, ◌≤◌, ◌-◌, List, None, length, slice_index_or};
ghost use Rattle.sota_hist.specs.Time.{IsTime, total, within, greatest_tick};
ghost use Rattle.sota_hist.specs.Laws.{RisingIsTime, TimeIsRising, RisingSums, SumsDecide};
ghost use Rattle.sota_hist.specs.Build.{time_of, exact_fault, at_most_fault};

/// Pairs in which nothing is wrong make a travel time, and its total is the scale, or at most the
/// scale.
pub fn built_times()
    ensures exact { (scale : ℕ) (pairs : List (ℕ × ℕ)) → exact_fault scale pairs ≡ None
        → IsTime (time_of pairs) × (total (time_of pairs) ≡ scale) }
    ensures at_most { (scale : ℕ) (pairs : List (ℕ × ℕ)) → at_most_fault scale pairs ≡ None
        → IsTime (time_of pairs) × (total (time_of pairs) ≤ scale) }
{}

/// The last pair of a travel time has its greatest tick, and the pairs within a limit are a travel
/// time again, but for their total.
pub fn times_rise()
    ensures last { (time : List (ℕ × ℕ)) (other : ℕ × ℕ) → IsTime time → 1 ≤ length time
        → (slice_index_or time (length time - 1) other).0 ≡ greatest_tick time }
    ensures within { (time : List (ℕ × ℕ)) (limit : ℕ) → IsTime time → IsTime (within limit time) }
{}

/// What the pairs by rising ticks are, and that a travel time is known by its pairs in any order.
pub fn order_of_pairs()
    ensures valid { RisingIsTime }
    ensures done { TimeIsRising }
    ensures sums { RisingSums }
    ensures known { SumsDecide }
{}
