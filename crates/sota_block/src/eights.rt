// Products of a block of masses and a block of values in lanes, eight places at a time.
ghost use Rattle.std.specs.Prelude.{◌≡◌, ℕ, ◌+◌, ◌-◌, ◌*◌, ◌%◌, ◌^◌, ◌<◌, ◌≤◌, length};
ghost use Rattle.std.specs.Prelude.{slice_index, min, sum, take, drop};
ghost use Rattle.sota_units.specs.Rounding.{SCALE_LIMIT};
ghost use Rattle.sota_block.specs.Meeting.{low_half, high_half, crossed_by, IsSkips};
ghost use Rattle.sota_block.specs.Meeting.{meeting_lows, meeting_highs};

use crate::dense::{add_skipping, crossed_sums};

/// Adds the products of a block of values and of as many masses, or fewer, to the sums of the first
/// places where they land, each sum in two halves: `low` gets the products of the values' lower 32
/// bits, `high` those of the upper 32. Masses of 0 are passed over, as `skips` says. What the lent
/// `padded` holds afterwards is open; it has 16 places more than the block, or longer.
pub fn add_block(
    masses: &[u32],
    skips: &[u32],
    shift: usize,
    values: &[u64],
    padded: &mut [u64],
    low: &mut [u64],
    high: &mut [u64],
)
    requires skips { IsSkips masses.now skips.now shift }
    requires near { shift ≤ 65536 }
    requires short { length values.now ≤ 65536 }
    requires within { length masses.now ≤ length values.now }
    requires padded_room { length values.now + 16 ≤ length padded.old }
    requires eights { length low.old % 8 ≡ 0 }
    requires low_room { length low.old ≤ 2 * length values.now }
    requires high_room { length high.old ≡ length low.old }
    requires low_fits { (k : ℕ) → k < length low.old
        → slice_index low.old k + meeting_lows masses.now values.now k < 2 ^ 64 }
    requires high_fits { (k : ℕ) → k < length high.old
        → slice_index high.old k + meeting_highs masses.now values.now k < 2 ^ 64 }
    ensures low { (k : ℕ) → k < length low.old → slice_index low.new k
        ≡ slice_index low.old k + meeting_lows masses.now values.now k }
    ensures high { (k : ℕ) → k < length high.old → slice_index high.new k
        ≡ slice_index high.old k + meeting_highs masses.now values.now k }
{
    let padded = &mut padded[..values.len() + 16];
    pad(values, padded);
    add_eights(masses, skips, shift, padded, low, high);
}

// The values between eight zeros before them and eight after them.
fn pad(values: &[u64], padded: &mut [u64])
    requires short { length values.now ≤ 65536 }
    requires room { length padded.old ≡ length values.now + 16 }
    ensures before { (i : ℕ) → i < 8 → slice_index padded.new i ≡ 0 }
    ensures inside { (a : ℕ) → a < length values.now
        → slice_index padded.new (8 + a) ≡ slice_index values.now a }
    ensures after { (i : ℕ) → i < 8 → slice_index padded.new (length values.now + 8 + i) ≡ 0 }
{
    let end = values.len() + 8;
    padded[8..end].copy_from_slice(values);
    for i in 0..8 {
        padded[i] = 0;
        padded[end + i] = 0;
    }
}

// The products with values that have eight zeros before and after them.
fn add_eights(
    masses: &[u32],
    skips: &[u32],
    shift: usize,
    padded: &[u64],
    low: &mut [u64],
    high: &mut [u64],
)
    requires skips { IsSkips masses.now skips.now shift }
    requires near { shift ≤ 65536 }
    requires eights { length low.old % 8 ≡ 0 }
    requires low_room { length low.old + 32 ≤ 2 * length padded.now }
    requires high_room { length high.old ≡ length low.old }
    requires within { length masses.now + 16 ≤ length padded.now }
    requires zeros_before { (i : ℕ) → i < 8 → slice_index padded.now i ≡ 0 }
    requires zeros_after { (i : ℕ) → length padded.now ≤ i + 8 → slice_index padded.now i ≡ 0 }
    requires low_fits { (k : ℕ) → k < length low.old
        → slice_index low.old k + crossed_by low_half masses.now padded.now (k + 8) < 2 ^ 64 }
    requires high_fits { (k : ℕ) → k < length high.old
        → slice_index high.old k + crossed_by high_half masses.now padded.now (k + 8) < 2 ^ 64 }
    ensures low { (k : ℕ) → k < length low.old → slice_index low.new k
        ≡ slice_index low.old k + crossed_by low_half masses.now padded.now (k + 8) }
    ensures high { (k : ℕ) → k < length high.old → slice_index high.new k
        ≡ slice_index high.old k + crossed_by high_half masses.now padded.now (k + 8) }
{
    let reach = padded.len() - 16 + masses.len();
    for part in 0..eights_of(low.len(), reach) {
        let at = part * 8;
        add_eight(
            masses,
            skips,
            shift,
            padded,
            at,
            &mut low[at..at + 8],
            &mut high[at..at + 8],
        );
    }
}

// How many eights hold the first of some places, up to `reach`.
fn eights_of(places: usize, reach: usize) -> usize
    requires eights { places % 8 ≡ 0 }
    requires no_overflow { reach < 2 ^ 63 }
    ensures within { 8 * result ≤ places }
    ensures all { min places reach ≤ 8 * result }
    ensures no_more { 8 * result < reach + 8 }
{
    (places.min(reach) + 7) / 8
}

// Eight of these places: of the masses that meet a value there.
#[inline(always)]
fn add_eight(
    masses: &[u32],
    skips: &[u32],
    shift: usize,
    padded: &[u64],
    at: usize,
    low: &mut [u64],
    high: &mut [u64],
)
    requires skips { IsSkips masses.now skips.now shift }
    requires near { shift ≤ 65536 }
    requires meets { at + 16 < length padded.now + length masses.now }
    requires within { length masses.now + 16 ≤ length padded.now }
    requires zeros_before { (i : ℕ) → i < 8 → slice_index padded.now i ≡ 0 }
    requires zeros_after { (i : ℕ) → length padded.now ≤ i + 8 → slice_index padded.now i ≡ 0 }
    requires low_room { length low.old ≡ 8 }
    requires high_room { length high.old ≡ 8 }
    requires low_fits { (j : ℕ) → j < 8
        → slice_index low.old j + crossed_by low_half masses.now padded.now (at + j + 8) < 2 ^ 64 }
    requires high_fits { (j : ℕ) → j < 8 → slice_index high.old j
        + crossed_by high_half masses.now padded.now (at + j + 8) < 2 ^ 64 }
    ensures low { (j : ℕ) → j < 8 → slice_index low.new j
        ≡ slice_index low.old j + crossed_by low_half masses.now padded.now (at + j + 8) }
    ensures high { (j : ℕ) → j < 8 → slice_index high.new j
        ≡ slice_index high.old j + crossed_by high_half masses.now padded.now (at + j + 8) }
{
    let (met, place) = window(masses, padded, at);
    let first = at + 8 - place;
    let met_skips = &skips[first..first + met.len()];
    add_skipping(met, met_skips, shift + first, padded, place, low, high);
}

/// Eight places of such a product: of the masses that meet a value there.
#[inline(always)]
pub(crate) fn eight_sums(masses: &[u32], padded: &[u64], at: usize, into: &mut [u128])
    requires few { sum masses.now ≤ SCALE_LIMIT }
    requires meets { at + 16 < length padded.now + length masses.now }
    requires within { length masses.now + 16 ≤ length padded.now }
    requires zeros_before { (i : ℕ) → i < 8 → slice_index padded.now i ≡ 0 }
    requires zeros_after { (i : ℕ) → length padded.now ≤ i + 8 → slice_index padded.now i ≡ 0 }
    requires room { length into.old ≡ 8 }
    ensures { (j : ℕ) → j < 8 → slice_index into.new j
        ≡ crossed_by (λ v. v) masses.now padded.now (at + j + 8) }
{
    let (met, place) = window(masses, padded, at);
    crossed_sums(met, padded, place, into);
}

// The masses that meet a value at eight places, and where the first of them does.
#[inline(always)]
fn window<'a>(masses: &'a [u32], padded: &[u64], at: usize) -> (&'a [u32], usize)
    requires meets { at + 16 < length padded.now + length masses.now }
    requires within { length masses.now + 16 ≤ length padded.now }
    requires zeros_before { (i : ℕ) → i < 8 → slice_index padded.now i ≡ 0 }
    requires zeros_after { (i : ℕ) → length padded.now ≤ i + 8 → slice_index padded.now i ≡ 0 }
    ensures before { length result.0.now ≤ result.1 + 1 }
    ensures within { result.1 + 8 ≤ length padded.now }
    ensures few { sum result.0.now ≤ sum masses.now }
    ensures from { result.1 ≤ at + 8 }
    ensures inside { at + 8 - result.1 + length result.0.now ≤ length masses.now }
    ensures met { result.0.now
        ≡ take (length result.0.now) (drop (at + 8 - result.1) masses.now) }
    ensures same { (part : ℕ → ℕ) (j : ℕ) → part 0 ≡ 0 → j < 8
        → crossed_by part result.0.now padded.now (result.1 + j)
        ≡ crossed_by part masses.now padded.now (at + j + 8) }
{
    let first = at.saturating_sub(padded.len() - 16);
    let end = masses.len().min(at + 8);
    (&masses[first..end], at + 8 - first)
}
