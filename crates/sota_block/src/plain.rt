// The plain product: each mass of the kernel times each value.
ghost use Rattle.std.specs.Prelude.{◌≡◌, ℕ, ◌+◌, ◌-◌, ◌*◌, ◌^◌, ◌<◌, ◌≤◌, length, sum, All};
ghost use Rattle.std.specs.Prelude.{EachIndex, slice_index};
ghost use Rattle.sota_units.specs.Rounding.{ONE, SCALE_LIMIT};
ghost use Rattle.sota_block.specs.Product.{IsBlockLength, FOLDED_LIMIT, coefficient};

use crate::narrow::{are_narrow, multiply_narrow};
use crate::wide::multiply_wide;
use sota_units::Steps;
use std::sync::ledger::Ledger;

/// The product of two blocks, by every mass times every value.
pub fn product_plain<M: Ledger>(
    kernel: &[u64],
    values: &[u128],
    into: &mut [u128],
    products: &mut Steps<M>,
)
    requires block { IsBlockLength (length kernel.now) }
    requires same_length { length values.now ≡ length kernel.now }
    requires masses { sum kernel.now ≤ SCALE_LIMIT }
    requires values { All (λ v. v ≤ ONE) values.now }
    requires room { length into.old ≡ 2 * length kernel.now }
    ensures coefficients { EachIndex into.new (λ k. slice_index into.new k
        ≡ coefficient kernel.now values.now k) }
    ensures last { slice_index into.new (length into.new - 1) ≡ 0 }
    ensures within { All (λ c. c < 2 ^ 107) into.new }
    ensures count { (r : ℕ) → length kernel.now ≡ 2 ^ r → products.new ≡ products.old + 4 ^ r }
{
    multiply(kernel, values, into, products);
}

// The same of values that may have been folded: in lanes where a block is of length 32 and its
// values fit 64 bits.
pub(crate) fn multiply<M: Ledger>(
    kernel: &[u64],
    values: &[u128],
    into: &mut [u128],
    products: &mut Steps<M>,
)
    requires same_length { length values.now ≡ length kernel.now }
    requires masses { sum kernel.now ≤ SCALE_LIMIT }
    requires values { All (λ v. v ≤ FOLDED_LIMIT) values.now }
    requires room { length into.old ≡ 2 * length kernel.now }
    ensures coefficients { EachIndex into.new (λ k. slice_index into.new k
        ≡ coefficient kernel.now values.now k) }
    ensures count { products.new ≡ products.old + length kernel.now * length kernel.now }
{
    if kernel.len() == 32 && are_narrow(values) {
        multiply_narrow(kernel, values, into);
        return products.add(1024);
    }
    multiply_wide(kernel, values, into, products);
}
