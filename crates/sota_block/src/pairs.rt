// The sums of pairs of a tick and a mass, at eight places of a row in lanes.
ghost use Rattle.std.specs.Prelude.{◌≡◌, ℕ, ◌+◌, ◌-◌, ◌*◌, ◌/◌, ◌%◌, ◌^◌, ◌<◌, ◌≤◌, length};
ghost use Rattle.std.specs.Prelude.{slice_index};
ghost use Rattle.std.specs.List.{All};
ghost use Rattle.sota_units.specs.Rounding.{ONE, SCALE_LIMIT};
ghost use Rattle.sota_block.specs.Pairs.{pairs_sum, pairs_mass};

use crate::lanes::{add_highs, add_lows};
use sota_units::{Grain, Mass, Tick};
use std::simd::prelude::*;

/// The sums at eight places of a row, from `at` on: of each mass times the value that stands as
/// many places before as its tick says. All these values are in the row.
pub fn pair_sums(pairs: &[(Tick, Mass)], row: &[Grain], at: usize, into: &mut [u128])
    requires few { pairs_mass pairs.now ≤ SCALE_LIMIT }
    requires before { All (λ p. p.0 ≤ at) pairs.now }
    requires within { All (λ p. at + 8 ≤ length row.now + p.0) pairs.now }
    requires room { length into.old ≡ 8 }
    ensures sums { (j : ℕ) → j < 8 → slice_index into.new j ≡ pairs_sum row.now (at + j) pairs.now }
    ensures small { (j : ℕ) → j < 8 → slice_index into.new j < 2 ^ 100 }
{
    let mut low = u64x8::splat(0);
    let mut high = u64x8::splat(0);
    for (tick, mass) in pairs {
        let values = eight(row, at - tick.get() as usize);
        let mass = u64::from(mass.get());
        low = add_lows(low, mass, values);
        high = add_highs(high, mass, values);
    }
    let low = low.to_array();
    let high = high.to_array();
    for j in 0..8 {
        into[j] = u128::from(high[j]) * 4_294_967_296 + u128::from(low[j]);
    }
}

/// Eight values of a row.
#[inline(always)]
fn eight(row: &[Grain], from: usize) -> u64x8
    requires within { from + 8 ≤ length row.now }
    ensures values { (j : ℕ) → j < 8 → slice_index result j ≡ slice_index row.now (from + j) }
    ensures small { (j : ℕ) → j < 8 → slice_index result j ≤ ONE }
{
    u64x8::from_array([
        row[from].get(),
        row[from + 1].get(),
        row[from + 2].get(),
        row[from + 3].get(),
        row[from + 4].get(),
        row[from + 5].get(),
        row[from + 6].get(),
        row[from + 7].get(),
    ])
}
