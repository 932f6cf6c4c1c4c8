// The worked product and a large one, by both calls. How much they count stands in the helpers'
// contracts, since a counter has no number at run time.
ghost use Rattle.std.specs.Prelude.{◌≡◌, ◌+◌, ◌<◌};

use crate::{product_fold, product_plain, scratch_len};
use sota_units::Steps;
use std::marker::Brand;
use std::process::Abort;
use std::sync::ledger::{Blank, Ledger};

/// The product of the masses 1 and 2 and the values 3 and 4.
fn small<M: Ledger>(into: &mut [u128; 4], products: &mut Steps<M>)
    ensures { products.new ≡ products.old + 4 }
{
    product_plain(&[1, 2], &[3, 4], into, products);
}

/// A folded product of length 64.
fn middling<M: Ledger>(into: &mut [u128; 128], products: &mut Steps<M>)
    ensures { products.new ≡ products.old + 3072 }
{
    let mut scratch = [0; 192];
    let mut folded = [0; 64];
    product_fold(
        &[5; 64],
        &[7; 64],
        into,
        &mut scratch,
        &mut folded,
        products,
    );
}

/// Products of length 256 by both calls, of masses whose sum is the greatest and of the greatest
/// values.
fn large<M: Ledger>(plain: &mut [u128; 512], folded: &mut [u128; 512], products: &mut Steps<M>)
    ensures { products.new ≡ products.old + 65536 + 27648 }
{
    let mut kernel = [3_906_250; 256];
    kernel[3] = 3_900_000;
    kernel[200] = 3_912_500;
    let mut values = [1_000_000_000_000_000_000; 256];
    values[70] = 1;
    values[255] = 12_345_678_901_234_567;
    let mut scratch = [0; 768];
    let mut sums = [0; 256];
    product_plain(&kernel, &values, plain, products);
    product_fold(&kernel, &values, folded, &mut scratch, &mut sums, products);
}

fn all<M: Ledger>(rt: &impl Abort, blank: Blank)
    requires name { blank.name ≡ M.name }
    requires parts { blank.parts ≡ M.parts }
    requires some { 0 < blank.parts }
{
    let mut products = Steps::<M>::new(blank);
    let mut into = [9; 4];
    small(&mut into, &mut products);
    assert_eq!(rt; into.as_slice(), [3, 10, 8, 0].as_slice());
    let mut into = [9; 128];
    middling(&mut into, &mut products);
    for k in 0..128 {
        assert_eq!(rt; into[k], 35 * (k + 1).min(127 - k) as u128, "at {k}");
    }
    let mut plain = [9; 512];
    let mut folded = [9; 512];
    large(&mut plain, &mut folded, &mut products);
    assert_eq!(rt; plain.as_slice(), folded.as_slice());
    assert_eq!(rt; plain[0], 3_906_250_000_000_000_000_000_000);
    assert_eq!(rt; plain[510], 48_225_308_207_947_527_343_750);
}

#[test]
fn products_of_blocks(rt: HostRuntime) {
    assert_eq!(rt; scratch_len(64), 192);
    all::<Brand>(&rt, Blank::new(1));
}
