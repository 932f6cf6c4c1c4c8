// The two bounds of a probability, and the values that they round sums to.
ghost use Rattle.std.specs.Prelude.{ℕ, ◌≡◌, ◌*◌, ◌<◌, ◌≤◌, length, slice_index};
ghost use Rattle.sota_units.specs.Rounding.{ONE};
ghost use Rattle.sota_sums.specs.Bounds.{rounded_in};

use sota_units::{Grain, Heft, Scale};

/// The two bounds of a probability. The lower one is rounded down, the upper one up.
#[derive(Clone, Copy, Debug, PartialEq, Eq)]
pub enum Bound {
    Lower,
    Upper,
}

/// A sum over the scale, rounded outwards. Where all mass is certain no division is needed.
fn rounded(sum: u128, scale: Scale, bound: Bound) -> Grain
    requires { sum ≤ scale * ONE }
    ensures { result ≡ rounded_in bound scale sum }
{
    if sum >= u128::from(scale.get()) * u128::from(Grain::ONE.get()) {
        return Grain::ONE;
    }
    match (Heft::new(sum), bound) {
        (Some(heft), Bound::Lower) => heft.down(scale),
        (Some(heft), Bound::Upper) => heft.up(scale),
        (None, _) => Grain::ZERO,
    }
}

/// The first sums over the scale, each rounded outwards. None of them is above one whole times the
/// scale.
pub fn round(sums: &[u128], scale: Scale, bound: Bound, into: &mut [Grain], count: usize)
    requires sums_room { count ≤ length sums.now }
    requires room { count ≤ length into.old }
    requires small { (x : ℕ) → x < count → slice_index sums.now x ≤ scale * ONE }
    ensures values { (x : ℕ) → x < count
        → slice_index into.new x ≡ rounded_in bound scale (slice_index sums.now x) }
    ensures room { length into.new ≡ length into.old }
{
    for place in 0..count {
        into[place] = rounded(sums[place], scale, bound);
    }
}
