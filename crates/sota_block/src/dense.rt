// Eight places of a product of blocks.
ghost use Rattle.std.specs.Prelude.{◌≡◌, ℕ, ◌+◌, ◌-◌, ◌*◌, ◌^◌, ◌<◌, ◌≤◌, length, slice_index, sum};
ghost use Rattle.sota_units.specs.Rounding.{SCALE_LIMIT};
ghost use Rattle.sota_block.specs.Meeting.{crossed_by, HasEight, EightGrow, IsSkips};

use crate::lanes::{add_highs, add_lows};
use std::simd::prelude::*;

/// The sums at eight places in a row, from `at` on: of each mass times the value that stands as
/// many places before as the mass has in its list.
pub fn crossed_sums(masses: &[u32], values: &[u64], at: usize, into: &mut [u128])
    requires few { sum masses.now ≤ SCALE_LIMIT }
    requires before { length masses.now ≤ at + 1 }
    requires within { at + 8 ≤ length values.now }
    requires room { length into.old ≡ 8 }
    ensures sums { (j : ℕ) → j < 8
        → slice_index into.new j ≡ crossed_by (λ v. v) masses.now values.now (at + j) }
    ensures small { (j : ℕ) → j < 8 → slice_index into.new j < 2 ^ 97 }
{
    let mut low = [0u64; 8];
    let mut high = [0u64; 8];
    add_crossed(masses, values, at, &mut low, &mut high);
    join(&low, &high, into);
}

// The sums of two rows of halves.
fn join(low: &[u64], high: &[u64], into: &mut [u128])
    requires low_length { length low.now ≡ length into.old }
    requires high_length { length high.now ≡ length into.old }
    ensures { (k : ℕ) → k < length into.old → slice_index into.new k
        ≡ slice_index low.now k + 4294967296 * slice_index high.now k }
{
    for k in 0..into.len() {
        into[k] = u128::from(high[k]) * 4_294_967_296 + u128::from(low[k]);
    }
}

/// Adds to eight sums in a row, each in two halves, the products of a block of masses with the
/// values from `at` backwards. Masses of 0 are passed over.
#[inline(always)]
pub(crate) fn add_crossed(
    masses: &[u32],
    values: &[u64],
    at: usize,
    low: &mut [u64],
    high: &mut [u64],
)
    requires { HasEight masses.now values.now at low.old high.old }
    ensures { EightGrow masses.now values.now at low.old high.old low.new high.new }
{
    let mut low_sums = u64x8::from_slice(low);
    let mut high_sums = u64x8::from_slice(high);
    for b in 0..masses.len() {
        let mass = u64::from(masses[b]);
        if mass != 0 {
            let part = u64x8::from_slice(&values[at - b..]);
            low_sums = add_lows(low_sums, mass, part);
            high_sums = add_highs(high_sums, mass, part);
        }
    }
    low_sums.copy_to_slice(low);
    high_sums.copy_to_slice(high);
}

/// The same of masses many of which are 0: `skips` says where the next ones are that are not.
#[inline(always)]
pub(crate) fn add_skipping(
    masses: &[u32],
    skips: &[u32],
    shift: usize,
    values: &[u64],
    at: usize,
    low: &mut [u64],
    high: &mut [u64],
)
    requires skips { IsSkips masses.now skips.now shift }
    requires eight { HasEight masses.now values.now at low.old high.old }
    ensures { EightGrow masses.now values.now at low.old high.old low.new high.new }
{
    let mut low_sums = u64x8::from_slice(low);
    let mut high_sums = u64x8::from_slice(high);
    let mut b = 0;
    while b < masses.len() {
        let next = skips[b] as usize - shift;
        if next < masses.len() {
            let mass = u64::from(masses[next]);
            let part = u64x8::from_slice(&values[at - next..]);
            low_sums = add_lows(low_sums, mass, part);
            high_sums = add_highs(high_sums, mass, part);
        }
        b = next + 1;
    }
    low_sums.copy_to_slice(low);
    high_sums.copy_to_slice(high);
}
