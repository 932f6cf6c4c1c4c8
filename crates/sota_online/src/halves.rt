// Sums in two halves of 32 bits each.
ghost use Rattle.std.specs.Prelude.{◌≡◌, ℕ, ◌+◌, ◌-◌, ◌*◌, ◌^◌, ◌<◌, ◌≤◌, length, sum, slice_index};
ghost use Rattle.sota_units.specs.Rounding.{SCALE_LIMIT, HEFT_LIMIT};
ghost use Rattle.sota_block.specs.Product.{sum_below};

use sota_units::Heft;

/// The heft of two halves.
pub(crate) fn joined(low: u64, high: u64) -> Heft
    requires { low + 4294967296 * high ≤ HEFT_LIMIT }
    ensures value { result ≡ low + 4294967296 * high }
    ensures within { result < 2 ^ 97 }
{
    match Heft::new(u128::from(high) * 4_294_967_296 + u128::from(low)) {
        Some(heft) => heft,
        None => Heft::ZERO,
    }
}

/// The sum of each mass times the value that stands as far from the other end.
pub(crate) fn crossed(masses: &[u32], values: &[u64]) -> Heft
    requires same_length { length values.now ≡ length masses.now }
    requires few { sum masses.now ≤ SCALE_LIMIT }
    ensures value { result ≡ sum_below (length masses.now)
        (λ b. slice_index masses.now b * slice_index values.now (length masses.now - 1 - b)) }
    ensures within { result < 2 ^ 97 }
{
    let length = masses.len();
    let mut low = 0;
    let mut high = 0;
    for i in 0..length {
        let mass = u64::from(masses[i]);
        let value = values[length - 1 - i];
        low += mass * (value % 4_294_967_296);
        high += mass * (value / 4_294_967_296);
    }
    joined(low, high)
}

/// Adds hefts in halves to sums.
pub(crate) fn add_halves(low: &[u64], high: &[u64], into: &mut [u128])
    requires low_length { length low.now ≡ length into.old }
    requires high_length { length high.now ≡ length into.old }
    requires small { (k : ℕ) → k < length into.old → slice_index into.old k < 2 ^ 97 }
    ensures small { (k : ℕ) → k < length into.old → slice_index into.new k < 2 ^ 98 }
    ensures sums { (k : ℕ) → k < length into.old → slice_index into.new k
        ≡ slice_index into.old k + (slice_index low.now k + 4294967296 * slice_index high.now k) }
{
    for k in 0..into.len() {
        into[k] += u128::from(high[k]) * 4_294_967_296 + u128::from(low[k]);
    }
}
