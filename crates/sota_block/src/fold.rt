// The folded product of Karatsuba: three products of half the length in place of four.
ghost use Rattle.std.specs.Prelude.{◌≡◌, ℕ, ◌+◌, ◌-◌, ◌*◌, ◌/◌, ◌^◌, ◌<◌, ◌≤◌, length, sum, All};
ghost use Rattle.std.specs.Prelude.{EachIndex, slice_index};
ghost use Rattle.sota_units.specs.Rounding.{ONE, SCALE_LIMIT};
ghost use Rattle.sota_block.specs.Product.{IsBlockLength, FOLDED_LIMIT, coefficient, fold_count};

use crate::plain::multiply;
use sota_units::Steps;
use std::sync::ledger::Ledger;

/// Blocks of this length and less are multiplied plainly.
const PLAIN_LENGTH: usize = 32;

/// How many places `product_fold` wants lent for blocks of this length.
pub fn scratch_len(len: usize) -> usize
    requires { len ≤ 65536 }
    ensures { result ≡ 3 * len }
{
    len * 3
}

/// How many multiplications `product_fold` takes for blocks of this length.
pub fn fold_products(len: usize) -> usize
    requires { IsBlockLength len }
    ensures count { (r : ℕ) → len ≡ 2 ^ r → result ≡ fold_count r }
    ensures within { result ≤ len * len }
{
    if len <= PLAIN_LENGTH {
        len * len
    } else {
        3 * fold_products(len / 2)
    }
}

/// The product of two blocks, by folding (Karatsuba): the middle coefficients come from one product
/// of the halves' sums. What the lent slices hold afterwards is open.
pub fn product_fold<M: Ledger>(
    kernel: &[u64],
    values: &[u128],
    into: &mut [u128],
    scratch: &mut [u128],
    folded: &mut [u64],
    products: &mut Steps<M>,
)
    requires block { IsBlockLength (length kernel.now) }
    requires same_length { length values.now ≡ length kernel.now }
    requires masses { sum kernel.now ≤ SCALE_LIMIT }
    requires values { All (λ v. v ≤ ONE) values.now }
    requires room { length into.old ≡ 2 * length kernel.now }
    requires scratch_room { 3 * length kernel.now ≤ length scratch.old }
    requires folded_room { length kernel.now ≤ length folded.old }
    ensures coefficients { EachIndex into.new (λ k. slice_index into.new k
        ≡ coefficient kernel.now values.now k) }
    ensures last { slice_index into.new (length into.new - 1) ≡ 0 }
    ensures within { All (λ c. c < 2 ^ 107) into.new }
    ensures count { (r : ℕ) → length kernel.now ≡ 2 ^ r → products.new
        ≡ products.old + fold_count r }
{
    fold(kernel, values, into, scratch, folded, products);
}

// The folded product, of values that may have been folded: the shorter the block, the more often.
fn fold<M: Ledger>(
    kernel: &[u64],
    values: &[u128],
    into: &mut [u128],
    scratch: &mut [u128],
    folded: &mut [u64],
    products: &mut Steps<M>,
)
    requires block { IsBlockLength (length kernel.now) }
    requires same_length { length values.now ≡ length kernel.now }
    requires masses { sum kernel.now ≤ SCALE_LIMIT }
    requires values { All (λ v. v * length kernel.now ≤ FOLDED_LIMIT) values.now }
    requires room { length into.old ≡ 2 * length kernel.now }
    requires scratch_room { 3 * length kernel.now ≤ length scratch.old }
    requires folded_room { length kernel.now ≤ length folded.old }
    ensures coefficients { EachIndex into.new (λ k. slice_index into.new k
        ≡ coefficient kernel.now values.now k) }
    ensures count { (r : ℕ) → length kernel.now ≡ 2 ^ r → products.new
        ≡ products.old + fold_count r }
{
    let length = kernel.len();
    if length <= PLAIN_LENGTH {
        return multiply(kernel, values, into, products);
    }
    let half = length / 2;
    let (kernel_low, kernel_high) = kernel.split_at(half);
    let (values_low, values_high) = values.split_at(half);
    let (into_low, into_high) = into.split_at_mut(length);
    fold(kernel_low, values_low, into_low, scratch, folded, products);
    fold(
        kernel_high,
        values_high,
        into_high,
        scratch,
        folded,
        products,
    );
    let (kernel_sum, folded) = folded.split_at_mut(half);
    let (values_sum, scratch) = scratch.split_at_mut(half);
    let (middle, scratch) = scratch.split_at_mut(length);
    add_masses(kernel_low, kernel_high, kernel_sum);
    add_values(values_low, values_high, values_sum);
    fold(kernel_sum, values_sum, middle, scratch, folded, products);
    add_middle(half, middle, into_low, into_high);
}

// The sums of two lists of masses, place by place.
fn add_masses(left: &[u64], right: &[u64], into: &mut [u64])
    requires left_length { length left.now ≡ length into.old }
    requires right_length { length right.now ≡ length into.old }
    requires few { sum left.now + sum right.now ≤ SCALE_LIMIT }
    ensures { EachIndex into.new (λ k. slice_index into.new k
        ≡ slice_index left.now k + slice_index right.now k) }
{
    for i in 0..into.len() {
        into[i] = left[i] + right[i];
    }
}

// The sums of two lists of values, place by place.
fn add_values(left: &[u128], right: &[u128], into: &mut [u128])
    requires left_length { length left.now ≡ length into.old }
    requires right_length { length right.now ≡ length into.old }
    requires left_small { All (λ v. v ≤ FOLDED_LIMIT) left.now }
    requires right_small { All (λ v. v ≤ FOLDED_LIMIT) right.now }
    ensures { EachIndex into.new (λ k. slice_index into.new k
        ≡ slice_index left.now k + slice_index right.now k) }
{
    for i in 0..into.len() {
        into[i] = left[i] + right[i];
    }
}

// Adds to the products of the low and the high halves what the product of the halves' sums has
// beyond both, half a block later: in the second quarter and the third.
fn add_middle(half: usize, middle: &[u128], low: &mut [u128], high: &mut [u128])
    requires middle_length { length middle.now ≡ half + half }
    requires low_length { length low.old ≡ half + half }
    requires high_length { length high.old ≡ half + half }
    requires beyond { EachIndex middle.now (λ k. slice_index low.old k + slice_index high.old k
        ≤ slice_index middle.now k) }
    requires small { All (λ c. c < 2 ^ 107) middle.now }
    ensures first { (i : ℕ) → i < half → slice_index low.new i ≡ slice_index low.old i }
    ensures second { (i : ℕ) → i < half → slice_index low.new (half + i)
        ≡ slice_index low.old (half + i)
        + (slice_index middle.now i - slice_index low.old i - slice_index high.old i) }
    ensures third { (i : ℕ) → i < half → slice_index high.new i
        ≡ slice_index high.old i + (slice_index middle.now (half + i)
        - slice_index low.old (half + i) - slice_index high.old (half + i)) }
    ensures fourth { (i : ℕ) → i < half → slice_index high.new (half + i)
        ≡ slice_index high.old (half + i) }
{
    let (middle_low, middle_high) = middle.split_at(half);
    let (first, second) = low.split_at_mut(half);
    let (third, fourth) = high.split_at_mut(half);
    for i in 0..half {
        let beside = second[i];
        second[i] += middle_low[i] - first[i] - third[i];
        third[i] += middle_high[i] - beside - fourth[i];
    }
}
