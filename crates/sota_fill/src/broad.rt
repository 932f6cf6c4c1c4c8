// The sums of an arc with many pairs, from a summer that was fed the values at its head.
ghost use Rattle.std.specs.Prelude.{ℕ, ◌≡◌, ◌+◌, ◌-◌, ◌<◌, ◌≤◌, List, length, slice_index};
ghost use Rattle.sota_hist.specs.Time.{IsTime, least_tick};
ghost use Rattle.sota_network.specs.Grid.{weighed};
ghost use Rattle.sota_kept.specs.Ticks.{END_LIMIT};
ghost use Rattle.sota_fill.specs.Bounds.{summer_in};
ghost use Rattle.sota_fill.specs.Fed.{IsFed};

use sota_online::Summer;
use sota_sums::Bound;

/// The two summers of a broad arc. One is fed the lower values at its head, the other the upper
/// ones, both from the least time of the head on.
#[derive(Drop)]
pub struct Summers<Z: Summer> {
    pub lower: Z,
    pub upper: Z,
}

impl<Z: Summer> Summers<Z> {
    /// That of a bound.
    pub(crate) fn of(&self, bound: Bound) -> &Z
        ensures { result.now ≡ summer_in bound self.now }
    {
        match bound {
            Bound::Lower => &self.lower,
            Bound::Upper => &self.upper,
        }
    }
}

/// The sums of an arc at budgets in a row, from `from` on, where the summer was fed the values at
/// its head from a base on, and these are 0 below it. The sum at `from` is not before its start.
pub fn broad_sums<Z: Summer>(summer: &Z, least: u32, base: u32, from: u32, into: &mut [u128])
    requires limit { from + length into.old ≤ END_LIMIT }
    requires start { (Z.state summer.now).start ≤ from + 1 - (least + base) }
    requires known { from + length into.old
        ≤ least + base + length (Z.state summer.now).values }
    ensures sums { (time : List (ℕ × ℕ)) (f : ℕ → ℕ) → IsTime time → least_tick time ≡ least
        → IsFed (Z.state summer.now) time base f → (x : ℕ) → x < length into.old
        → slice_index into.new x ≡ weighed f (from + x) time }
    ensures room { length into.new ≡ length into.old }
{
    let from = u64::from(from);
    let first = u64::from(least) + u64::from(base);
    let early = first.saturating_sub(from).min(into.len() as u64);
    into[..early as usize].fill(0);
    if (early as usize) < into.len() {
        let position = (from + early - first) as u32 + 1;
        summer.sums(position, &mut into[early as usize..]);
    }
}
