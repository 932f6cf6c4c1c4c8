// A square by a folded product.
ghost use Rattle.std.specs.Prelude.{◌≡◌, ℕ, ◌+◌, ◌*◌, ◌^◌, ◌<◌, ◌≤◌, length, slice_index};
ghost use Rattle.sota_block.specs.Meeting.{low_half, high_half};
ghost use Rattle.sota_block.specs.Product.{fold_count};
ghost use Rattle.sota_online.specs.Products.{IsSquare, Added};

use sota_block::product_fold;
use sota_units::Steps;
use std::sync::ledger::Ledger;

/// Adds the products of a block of values and of as many masses, or fewer, to the sums of the first
/// places where they land, each sum in two halves, by one folded product.
pub(crate) fn add_folded<M: Ledger>(
    masses: &[u32],
    values: &[u64],
    low: &mut [u64],
    high: &mut [u64],
    thin: &mut [u64],
    wide: &mut [u128],
    products: &mut Steps<M>,
)
    requires square { IsSquare masses.now values.now low.old high.old }
    requires thin_room { 2 * length values.now ≤ length thin.old }
    requires wide_room { 6 * length values.now ≤ length wide.old }
    ensures added { Added masses.now values.now low.old high.old low.new high.new }
    ensures count { (r : ℕ) → length values.now ≡ 2 ^ r
        → products.new ≡ products.old + fold_count r }
{
    let length = values.len();
    let (kernel, folded) = thin.split_at_mut(length);
    let (broad, rest) = wide.split_at_mut(length);
    let (into, scratch) = rest.split_at_mut(2 * length);
    widen_masses(masses, kernel);
    widen_values(values, broad);
    product_fold(kernel, broad, into, scratch, folded, products);
    add_wide(into, low, high);
}

// The masses, and zeros in the places past the last.
fn widen_masses(masses: &[u32], into: &mut [u64])
    requires { length masses.now ≤ length into.old }
    ensures { (k : ℕ) → slice_index into.new k ≡ slice_index masses.now k }
{
    for i in 0..into.len() {
        into[i] = if i < masses.len() {
            u64::from(masses[i])
        } else {
            0
        };
    }
}

fn widen_values(values: &[u64], into: &mut [u128])
    requires { length into.old ≡ length values.now }
    ensures { into.new ≡ values.now }
{
    for i in 0..values.len() {
        into[i] = u128::from(values[i]);
    }
}

// Adds the first sums of a list to sums in two halves.
fn add_wide(sums: &[u128], low: &mut [u64], high: &mut [u64])
    requires low_room { length low.old ≤ length sums.now }
    requires high_room { length high.old ≡ length low.old }
    requires low_fits { (k : ℕ) → k < length low.old
        → slice_index low.old k + low_half (slice_index sums.now k) < 2 ^ 64 }
    requires high_fits { (k : ℕ) → k < length low.old
        → slice_index high.old k + high_half (slice_index sums.now k) < 2 ^ 64 }
    ensures low { (k : ℕ) → k < length low.old → slice_index low.new k
        ≡ slice_index low.old k + low_half (slice_index sums.now k) }
    ensures high { (k : ℕ) → k < length low.old → slice_index high.new k
        ≡ slice_index high.old k + high_half (slice_index sums.now k) }
{
    for k in 0..low.len() {
        low[k] += (sums[k] % 4_294_967_296) as u64;
        high[k] += (sums[k] / 4_294_967_296) as u64;
    }
}
