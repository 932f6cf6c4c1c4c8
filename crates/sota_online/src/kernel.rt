// The masses of a histogram, tick by tick.
ghost use Rattle.std.specs.Prelude.{◌≡◌, ◌≤◌, length, sum, min, false, IfOk, vec_len};
ghost use Rattle.sota_hist.specs.Time.{is_closed, span};
ghost use Rattle.sota_units.specs.Rounding.{SCALE_LIMIT};
ghost use Rattle.sota_block.specs.Meeting.{IsSkips};
ghost use Rattle.sota_online.specs.Summer.{kernel_of};

use sota_hist::Histogram;
use sota_units::NoMemory;
use std::alloc::Global;

/// How many places the kernel has: the ticks from the least to the greatest, at most `length`.
pub(crate) fn span_of(time: &Histogram, length: u32) -> usize
    requires { is_closed time.now ≡ false }
    ensures { result ≡ min (span time.now) length }
{
    let span = u64::from(time.greatest().get() - time.least().get()) + 1;
    span.min(u64::from(length)) as usize
}

/// The masses at the ticks from the least on.
pub(crate) fn kernel_masses(
    alloc: Global,
    time: &Histogram,
    length: u32,
) -> Result<Vec<u32>, NoMemory>
    requires { is_closed time.now ≡ false }
    ensures masses { IfOk result (λ masses. masses.items ≡ kernel_of length time.now) }
    ensures span { IfOk result (λ masses. vec_len masses ≡ min (span time.now) length) }
    ensures few { IfOk result (λ masses. sum masses.items ≤ SCALE_LIMIT) }
{
    let span = span_of(time, length);
    let least = time.least().get();
    let mut masses = vec![in alloc; 0; span]?;
    for (tick, mass) in time.pairs() {
        let place = (tick.get() - least) as usize;
        if place < span {
            masses[place] += mass.get();
        }
    }
    Ok(masses)
}

/// At each place of a kernel, where its next mass is that is not 0.
pub(crate) fn skips_of(alloc: Global, masses: &[u32]) -> Result<Vec<u32>, NoMemory>
    requires { length masses.now ≤ 65536 }
    ensures { IfOk result (λ skips. IsSkips masses.now skips.items 0) }
{
    let mut skips = vec![in alloc; 0; masses.len()]?;
    let mut next = masses.len() as u32;
    for k in 0..masses.len() {
        let place = masses.len() - 1 - k;
        if masses[place] != 0 {
            next = place as u32;
        }
        skips[place] = next;
    }
    Ok(skips)
}
