// Plain sums of masses and values.
ghost use Rattle.std.specs.Prelude.{◌≡◌, ℕ, ◌+◌, ◌^◌, ◌<◌, ◌≤◌, length, sum, slice_index};
ghost use Rattle.sota_units.specs.Rounding.{SCALE_LIMIT};
ghost use Rattle.sota_online.specs.Summer.{plain};

use crate::halves::crossed;
use sota_block::crossed_sums;
use sota_units::Heft;

/// The plain sum at a position.
pub(crate) fn plain_sum(masses: &[u32], values: &[u64], position: usize) -> Heft
    requires few { sum masses.now ≤ SCALE_LIMIT }
    requires known { position ≤ length values.now }
    ensures value { result ≡ plain masses.now values.now position }
    ensures within { result < 2 ^ 97 }
{
    let few = position.min(masses.len());
    crossed(&masses[..few], &values[position - few..position])
}

/// The plain sums at the positions from one on, eight at a time.
pub(crate) fn plain_sums(masses: &[u32], values: &[u64], from: usize, into: &mut [u128])
    requires few { sum masses.now ≤ SCALE_LIMIT }
    requires positive { 1 ≤ from }
    requires known { from + length into.old ≤ length values.now + 1 }
    ensures sums { (k : ℕ) → k < length into.old
        → slice_index into.new k ≡ plain masses.now values.now (from + k) }
    ensures within { (k : ℕ) → k < length into.old → slice_index into.new k < 2 ^ 97 }
{
    let whole = into.len() / 8;
    for part in 0..whole {
        let at = 8 * part;
        eight_sums(masses, values, from + at, &mut into[at..at + 8]);
    }
    let rest = 8 * whole;
    few_sums(masses, values, from + rest, &mut into[rest..]);
}

// At eight positions: together where each of them reaches back over all masses.
fn eight_sums(masses: &[u32], values: &[u64], from: usize, into: &mut [u128])
    requires few { sum masses.now ≤ SCALE_LIMIT }
    requires positive { 1 ≤ from }
    requires eight { length into.old ≡ 8 }
    requires known { from + 8 ≤ length values.now + 1 }
    ensures sums { (k : ℕ) → k < length into.old
        → slice_index into.new k ≡ plain masses.now values.now (from + k) }
    ensures within { (k : ℕ) → k < length into.old → slice_index into.new k < 2 ^ 97 }
{
    if masses.len() <= from {
        return crossed_sums(masses, values, from - 1, into);
    }
    single_sums(masses, values, from, into);
}

// At fewer than eight positions: as the last of eight where these reach back over all masses. One
// or two are found sooner one by one.
fn few_sums(masses: &[u32], values: &[u64], from: usize, into: &mut [u128])
    requires few { sum masses.now ≤ SCALE_LIMIT }
    requires few_places { length into.old < 8 }
    requires known { from + length into.old ≤ length values.now + 1 }
    ensures sums { (k : ℕ) → k < length into.old
        → slice_index into.new k ≡ plain masses.now values.now (from + k) }
    ensures within { (k : ℕ) → k < length into.old → slice_index into.new k < 2 ^ 97 }
{
    let end = from + into.len();
    if into.len() > 2 && masses.len() + 9 <= end {
        let mut eight = [0u128; 8];
        crossed_sums(masses, values, end - 9, &mut eight);
        let (_, last) = eight.split_at(8 - into.len());
        into.copy_from_slice(last);
    } else {
        single_sums(masses, values, from, into);
    }
}

// One position after the other.
fn single_sums(masses: &[u32], values: &[u64], from: usize, into: &mut [u128])
    requires few { sum masses.now ≤ SCALE_LIMIT }
    requires known { from + length into.old ≤ length values.now + 1 }
    ensures sums { (k : ℕ) → k < length into.old
        → slice_index into.new k ≡ plain masses.now values.now (from + k) }
    ensures within { (k : ℕ) → k < length into.old → slice_index into.new k < 2 ^ 97 }
{
    for k in 0..into.len() {
        into[k] = plain_sum(masses, values, from + k).get();
    }
}
