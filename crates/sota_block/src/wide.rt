// The plain product in sums of 128 bits.
ghost use Rattle.std.specs.Prelude.{◌≡◌, ℕ, ◌+◌, ◌-◌, ◌*◌, ◌≤◌, length, sum, All};
ghost use Rattle.std.specs.Prelude.{EachIndex, slice_index};
ghost use Rattle.sota_units.specs.Rounding.{SCALE_LIMIT};
ghost use Rattle.sota_block.specs.Product.{FOLDED_LIMIT, coefficient, sum_below};

use sota_units::Steps;
use std::sync::ledger::Ledger;

/// The plain product, of values that may have been folded. At place k stand the products of the
/// first k + 1 masses and values, and at place k + length those of the others: as many together at
/// each k.
pub(crate) fn multiply_wide<M: Ledger>(
    kernel: &[u64],
    values: &[u128],
    into: &mut [u128],
    products: &mut Steps<M>,
)
    requires same_length { length values.now ≡ length kernel.now }
    requires masses { sum kernel.now ≤ SCALE_LIMIT }
    requires values { All (λ v. v ≤ FOLDED_LIMIT) values.now }
    requires room { length into.old ≡ 2 * length kernel.now }
    ensures coefficients { EachIndex into.new (λ k. slice_index into.new k
        ≡ coefficient kernel.now values.now k) }
    ensures count { products.new ≡ products.old + length kernel.now * length kernel.now }
{
    let length = kernel.len();
    let (low, high) = into.split_at_mut(length);
    for k in 0..length {
        let (near_masses, far_masses) = kernel.split_at(k + 1);
        let (near_values, far_values) = values.split_at(k + 1);
        low[k] = crossed(near_masses, near_values, products);
        high[k] = crossed(far_masses, far_values, products);
    }
}

// The sum of each mass times the value that stands as far from the other end.
fn crossed<M: Ledger>(masses: &[u64], values: &[u128], products: &mut Steps<M>) -> u128
    requires same_length { length values.now ≡ length masses.now }
    requires masses { sum masses.now ≤ SCALE_LIMIT }
    requires values { All (λ v. v ≤ FOLDED_LIMIT) values.now }
    ensures value { result ≡ sum_below (length masses.now)
        (λ b. slice_index masses.now b * slice_index values.now (length masses.now - 1 - b)) }
    ensures count { products.new ≡ products.old + length masses.now }
{
    let length = masses.len();
    let mut sum = 0;
    for b in 0..length {
        products.tick();
        sum += u128::from(masses[b]) * values[length - 1 - b];
    }
    sum
}
