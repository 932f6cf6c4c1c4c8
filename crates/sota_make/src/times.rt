// The travel time of an arc.
ghost use Rattle.std.specs.Prelude.{◌≡◌, ◌≤◌, ◌-◌, IfOk};
ghost use Rattle.sota_make.specs.Made.{MADE_SCALE, pairs_from, made_time};

use crate::laws::pairs_make_times;
use sota_hist::Histogram;
use sota_units::{Mass, NoMemory, Tick};
use sota_words::Words;
use std::alloc::Global;

/// What the masses of a time sum to.
pub(crate) const DENOMINATOR: u32 = 1_000_000;

/// A travel time over so many ticks, from one of the first ten ticks on.
pub(crate) fn made_time(alloc: Global, words: &mut Words, span: u32) -> Result<Histogram, NoMemory>
    requires { (1 ≤ span) × (span ≤ 1000) }
    ensures { IfOk result (λ time. (time, words.new) ≡ made_time span words.old) }
{
    pairs_make_times();
    let least = 1 + words.draw_below(10);
    let pairs = made_pairs(alloc, words, least, span)?;
    Histogram::from_rising(alloc, &pairs)
}

/// So many pairs from a tick on. Each tick has a mass of 1 at least, and of what is left each but
/// the last one takes at most twice its even share.
fn made_pairs(
    alloc: Global,
    words: &mut Words,
    least: u32,
    span: u32,
) -> Result<Vec<(Tick, Mass)>, NoMemory>
    requires span { (1 ≤ span) × (span ≤ 1000) }
    requires least { least ≤ 10 }
    ensures { IfOk result (λ pairs.
        (pairs.items, words.new) ≡ pairs_from span least (MADE_SCALE - span) words.old) }
{
    let mut pairs = Vec::with_capacity(alloc, span as usize)?;
    let mut rest = DENOMINATOR - span;
    for index in 0..span - 1 {
        let extra = words.draw_below(2 * rest / (span - index) + 1);
        pairs.push((Tick(least + index), Mass(1 + extra)))?;
        rest -= extra;
    }
    pairs.push((Tick(least + span - 1), Mass(1 + rest)))?;
    Ok(pairs)
}
