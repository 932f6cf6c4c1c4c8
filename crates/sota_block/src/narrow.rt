// The plain product of short blocks in lanes, where the values fit 64 bits.
ghost use Rattle.std.specs.Prelude.{◌≡◌, ℕ, ◌+◌, ◌*◌, ◌^◌, ◌<◌, ◌≤◌, length, sum, EachIndex};
ghost use Rattle.std.specs.Prelude.{IsTrue, slice_index};
ghost use Rattle.sota_units.specs.Rounding.{SCALE_LIMIT};
ghost use Rattle.sota_block.specs.Product.{coefficient};

use crate::eights::eight_sums;

/// Whether each value fits 64 bits.
pub(crate) fn are_narrow(values: &[u128]) -> bool
    ensures { IsTrue result → (k : ℕ) → slice_index values.now k < 2 ^ 64 }
{
    for value in values {
        if *value > 0xffff_ffff_ffff_ffff {
            return false;
        }
    }
    true
}

/// The plain product of blocks of length 32, in lanes.
pub(crate) fn multiply_narrow(kernel: &[u64], values: &[u128], into: &mut [u128])
    requires length { length kernel.now ≡ 32 }
    requires same_length { length values.now ≡ 32 }
    requires masses { sum kernel.now ≤ SCALE_LIMIT }
    requires small { (k : ℕ) → slice_index values.now k < 2 ^ 64 }
    requires room { length into.old ≡ 64 }
    ensures { EachIndex into.new (λ k. slice_index into.new k
        ≡ coefficient kernel.now values.now k) }
{
    let mut masses = [0u32; 32];
    let mut padded = [0u64; 48];
    narrow_masses(kernel, &mut masses);
    pad_narrow(values, &mut padded);
    for part in 0..8 {
        let at = part * 8;
        eight_sums(&masses, &padded, at, &mut into[at..at + 8]);
    }
}

fn narrow_masses(masses: &[u64], into: &mut [u32])
    requires length { length into.old ≡ length masses.now }
    requires few { sum masses.now ≤ SCALE_LIMIT }
    ensures { into.new ≡ masses.now }
{
    for i in 0..masses.len() {
        into[i] = masses[i] as u32;
    }
}

// The values between eight zeros before them and eight after them, where all was zeros.
fn pad_narrow(values: &[u128], padded: &mut [u64])
    requires short { length values.now ≤ 65536 }
    requires small { (k : ℕ) → slice_index values.now k < 2 ^ 64 }
    requires room { length padded.old ≡ length values.now + 16 }
    requires zeros { (i : ℕ) → slice_index padded.old i ≡ 0 }
    ensures before { (i : ℕ) → i < 8 → slice_index padded.new i ≡ 0 }
    ensures inside { (a : ℕ) → a < length values.now
        → slice_index padded.new (8 + a) ≡ slice_index values.now a }
    ensures after { (i : ℕ) → i < 8 → slice_index padded.new (length values.now + 8 + i) ≡ 0 }
{
    for i in 0..values.len() {
        padded[8 + i] = values[i] as u64;
    }
}
