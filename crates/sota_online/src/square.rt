// The products of a block of masses and a block of values.
ghost use Rattle.std.specs.Prelude.{◌≡◌, ℕ, ◌+◌, ◌*◌, ◌%◌, ◌^◌, ◌<◌, ◌≤◌, length, slice_index};
ghost use Rattle.std.specs.Prelude.{count_by, nat_lt};
ghost use Rattle.sota_block.specs.Meeting.{IsSkips};
ghost use Rattle.sota_block.specs.Product.{fold_count};
ghost use Rattle.sota_online.specs.Products.{IsSquare, Added};

use crate::Workspace;
use crate::folded::add_folded;
use sota_block::{add_block, fold_products};
use sota_units::Steps;
use std::sync::ledger::Ledger;

/// Adds the products of a block of values and of as many masses, or fewer, to the sums of the first
/// places where they land, each sum in two halves: plainly where so few masses are not 0 that it
/// takes no more products than a folded product, and else by that.
#[inline(always)]
pub(crate) fn add_square<M: Ledger>(
    masses: &[u32],
    skips: &[u32],
    shift: usize,
    values: &[u64],
    low: &mut [u64],
    high: &mut [u64],
    workspace: &mut Workspace,
    products: &mut Steps<M>,
)
    requires square { IsSquare masses.now values.now low.old high.old }
    requires skips { IsSkips masses.now skips.now shift }
    requires near { shift ≤ 65536 }
    requires eights { length low.old % 8 ≡ 0 }
    requires work { length values.now ≤ workspace.old }
    ensures added { Added masses.now values.now low.old high.old low.new high.new }
    ensures work { workspace.new ≡ workspace.old }
    ensures count { (r : ℕ) → length values.now ≡ 2 ^ r
        → products.new ≤ products.old + fold_count r }
{
    let some = some_masses(masses);
    if some == 0 {
        return;
    }
    let taken = some * values.len();
    if taken <= fold_products(values.len()) {
        return add_plain(
            masses,
            skips,
            shift,
            values,
            low,
            high,
            &mut workspace.thin,
            taken,
            products,
        );
    }
    let (thin, wide) = (&mut workspace.thin, &mut workspace.wide);
    add_folded(masses, values, low, high, thin, wide, products);
}

/// How many masses are not 0.
#[inline(always)]
pub(crate) fn some_masses(masses: &[u32]) -> usize
    ensures count { result ≡ count_by (λ m. nat_lt 0 m) masses.now }
    ensures within { result ≤ length masses.now }
    ensures none { result ≡ 0
        → (k : ℕ) → k < length masses.now → slice_index masses.now k ≡ 0 }
{
    let mut some = 0;
    for mass in masses {
        if *mass > 0 {
            some += 1;
        }
    }
    some
}

// By each mass that is not 0 times each value.
#[inline(always)]
fn add_plain<M: Ledger>(
    masses: &[u32],
    skips: &[u32],
    shift: usize,
    values: &[u64],
    low: &mut [u64],
    high: &mut [u64],
    padded: &mut [u64],
    taken: usize,
    products: &mut Steps<M>,
)
    requires square { IsSquare masses.now values.now low.old high.old }
    requires skips { IsSkips masses.now skips.now shift }
    requires near { shift ≤ 65536 }
    requires eights { length low.old % 8 ≡ 0 }
    requires padded_room { length values.now + 16 ≤ length padded.old }
    requires taken { count_by (λ m. nat_lt 0 m) masses.now * length values.now ≤ taken }
    ensures added { Added masses.now values.now low.old high.old low.new high.new }
    ensures count { products.new ≡ products.old + taken }
{
    add_block(masses, skips, shift, values, padded, low, high);
    products.add(taken as u64);
}
