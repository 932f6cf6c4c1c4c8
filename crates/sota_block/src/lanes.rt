// Eight sums of masses times values, each in two halves.
ghost use Rattle.std.specs.Prelude.{◌≡◌, ℕ, ◌+◌, ◌-◌, ◌*◌, ◌/◌, ◌%◌, ◌^◌, ◌<◌, ◌≤◌, slice_index};

use std::simd::prelude::*;

/// Adds a mass times the lower halves of eight values.
#[inline(always)]
pub(crate) fn add_lows(sums: u64x8, mass: u64, values: u64x8) -> u64x8
    requires fits { (j : ℕ) → j < 8
        → slice_index sums j + mass * (slice_index values j % 4294967296) < 2 ^ 64 }
    ensures { (j : ℕ) → j < 8 → slice_index result j
        ≡ slice_index sums j + mass * (slice_index values j % 4294967296) }
{
    sums + u64x8::splat(mass) * (values & u64x8::splat(0xffff_ffff))
}

/// Adds a mass times the upper halves of eight values.
#[inline(always)]
pub(crate) fn add_highs(sums: u64x8, mass: u64, values: u64x8) -> u64x8
    requires fits { (j : ℕ) → j < 8
        → slice_index sums j + mass * (slice_index values j / 4294967296) < 2 ^ 64 }
    ensures { (j : ℕ) → j < 8 → slice_index result j
        ≡ slice_index sums j + mass * (slice_index values j / 4294967296) }
{
    sums + u64x8::splat(mass) * (values >> u64x8::splat(32))
}
