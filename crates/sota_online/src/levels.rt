// The squares that a value makes whole.
ghost use Rattle.std.specs.Prelude.{◌≡◌, ℕ, ◌+◌, ◌-◌, ◌*◌, ◌%◌, ◌^◌, ◌<◌, ◌≤◌, length};
ghost use Rattle.std.specs.Prelude.{slice_index, sum};
ghost use Rattle.sota_units.specs.Rounding.{ONE, SCALE_LIMIT};
ghost use Rattle.sota_block.specs.Meeting.{IsSkips};
ghost use Rattle.sota_block.specs.Product.{IsBlockLength, fold_count};
ghost use Rattle.sota_online.specs.Products.{Fits, Landed};
ghost use Rattle.sota_online.specs.Squares.{HoldsProducts, LEVELS, numbered, reached};
ghost use Rattle.sota_online.specs.Squares.{square_counts};

use crate::Workspace;
use crate::square::add_square;
use sota_units::Steps;
use std::sync::ledger::Ledger;

/// Works off each square that the last of some whole blocks of the smallest size makes whole: at
/// each size, a power of two, of which the number of values is a multiple. Those that land wholly
/// before the start are left out.
pub(crate) fn work_off<M: Ledger>(
    masses: &[u32],
    skips: &[u32],
    first: u32,
    smallest: usize,
    values: &[u64],
    start: usize,
    low: &mut [u64],
    high: &mut [u64],
    workspace: &mut Workspace,
    products: &mut Steps<M>,
)
    requires skips { IsSkips masses.now skips.now 0 }
    requires some { 1 ≤ length values.now }
    requires few_values { length values.now ≤ 65536 }
    requires size { smallest ≡ 2 ^ first }
    requires whole { length values.now % 2 ^ first ≡ 0 }
    requires first_ge { 3 ≤ first }
    requires first_le { first ≤ 9 }
    requires few { sum masses.now ≤ SCALE_LIMIT }
    requires low_eights { length low.old % 8 ≡ 0 }
    requires low_room { length values.now ≤ length low.old }
    requires high_room { length high.old ≡ length low.old }
    requires small { (a : ℕ) → slice_index values.now a ≤ ONE }
    requires work { length masses.now ≤ workspace.old }
    requires held { (p : ℕ) → p < length low.old
        → HoldsProducts (numbered masses.now) (λ a. slice_index values.now a)
        (λ r. reached first (length values.now - 1) r) LEVELS start p
        (slice_index low.old p) (slice_index high.old p) }
    ensures held { (p : ℕ) → p < length low.new
        → HoldsProducts (numbered masses.now) (λ a. slice_index values.now a)
        (λ r. reached first (length values.now) r) LEVELS start p
        (slice_index low.new p) (slice_index high.new p) }
    ensures work { workspace.new ≡ workspace.old }
    ensures count { products.new
        ≤ products.old + square_counts (length masses.now) (length values.now) }
{
    let known = values.len();
    let mut size = smallest;
    let mut blocks = known >> first;
    for level in first..17 {
        if size > masses.len() {
            return;
        }
        let end = masses.len().min(2 * size - 1);
        add_at(
            &masses[size - 1..end],
            &skips[size - 1..end],
            size - 1,
            &values[known - size..],
            known,
            start,
            low,
            high,
            workspace,
            products,
        );
        if blocks % 2 != 0 {
            return;
        }
        blocks /= 2;
        size *= 2;
    }
}

// The products of masses and a block of values, from a place on. They land before twice as many
// places more as there are values, and are left out where that is not after the start.
#[inline(always)]
fn add_at<M: Ledger>(
    masses: &[u32],
    skips: &[u32],
    shift: usize,
    values: &[u64],
    at: usize,
    start: usize,
    low: &mut [u64],
    high: &mut [u64],
    workspace: &mut Workspace,
    products: &mut Steps<M>,
)
    requires block { IsBlockLength (length values.now) }
    requires within { length masses.now ≤ length values.now }
    requires skips { IsSkips masses.now skips.now shift }
    requires near { shift ≤ 65536 }
    requires at_eights { at % 8 ≡ 0 }
    requires block_eights { length values.now % 8 ≡ 0 }
    requires low_eights { length low.old % 8 ≡ 0 }
    requires low_room { at ≤ length low.old }
    requires high_room { length high.old ≡ length low.old }
    requires few { sum masses.now ≤ SCALE_LIMIT }
    requires small { (a : ℕ) → slice_index values.now a ≤ ONE }
    requires work { length values.now ≤ workspace.old }
    requires low_fits { Fits masses.now (length values.now) at low.old }
    requires high_fits { Fits masses.now (length values.now) at high.old }
    ensures landed { Landed masses.now values.now at start low.old high.old low.new
        high.new }
    ensures work { workspace.new ≡ workspace.old }
    ensures count { (r : ℕ) → length values.now ≡ 2 ^ r
        → products.new ≤ products.old + fold_count r }
{
    let reach = at + 2 * values.len();
    if reach <= start {
        return;
    }
    let end = low.len().min(reach);
    add_square(
        masses,
        skips,
        shift,
        values,
        &mut low[at..end],
        &mut high[at..end],
        workspace,
        products,
    );
}
