// The values that a summer was fed.
ghost use Rattle.std.specs.Prelude.{ℕ, ◌+◌, ◌≤◌, length, slice_index};
ghost use Rattle.sota_units.specs.Rounding.{ONE};
ghost use Rattle.sota_online.specs.Summer.{IsPut};

use sota_units::Grain;

/// Puts values from a place on.
pub(crate) fn put(values: &[Grain], into: &mut [u64], at: usize)
    requires { at + length values.now ≤ length into.old }
    ensures put { IsPut into.old into.new at (length values.now) (λ k. slice_index values.now k) }
    ensures small { (k : ℕ) → slice_index values.now k ≤ ONE }
{
    for k in 0..values.len() {
        into[at + k] = values[k].get();
    }
}
