// The sums of one arc at budgets in a row.
ghost use Rattle.std.specs.Prelude.{ℕ, ◌≡◌, ◌+◌, ◌*◌, ◌<◌, ◌≤◌, false, length, slice_index};
ghost use Rattle.sota_units.specs.Rounding.{ONE, SCALE_LIMIT};
ghost use Rattle.sota_hist.specs.Time.{IsTime, is_closed, least_tick, total, within};
ghost use Rattle.sota_network.specs.Grid.{weighed};
ghost use Rattle.sota_units.specs.Limits.{BUDGET_LIMIT};
ghost use Rattle.sota_sums.specs.Rows.{row_at};

use sota_block::pair_sums;
use sota_hist::Histogram;
use sota_units::{Grain, Mass, Tick};

/// At how many budgets sums are made in lanes.
const TILE: usize = 8;

/// The sum of each mass times the value that stands as many places before as its tick says.
fn sum_at(pairs: &[(Tick, Mass)], row: &[Grain], place: usize) -> u128
    requires few { total pairs.now ≤ SCALE_LIMIT }
    ensures value { result ≡ weighed (λ u. slice_index row.now u) place pairs.now }
    ensures within { result ≤ total pairs.now * ONE }
{
    let mut sum = 0;
    for (tick, mass) in pairs {
        let tick = tick.get() as usize;
        if tick <= place && place - tick < row.len() {
            sum += u128::from(mass.get()) * u128::from(row[place - tick].get());
        }
    }
    sum
}

/// The pairs at ticks of at most the limit: mostly all of them, and then nothing is searched.
fn pairs_within(time: &Histogram, limit: u32) -> &[(Tick, Mass)]
    requires open { is_closed time.now ≡ false }
    ensures { result.now ≡ within limit time.now }
{
    if time.greatest().get() <= limit {
        return time.pairs();
    }
    time.within(Tick(limit))
}

/// The sums of an arc at eight places in a row. Pairs whose ticks come up to the first place make
/// theirs in lanes, and the few others one by one.
fn tile_sums(time: &Histogram, row: &[Grain], at: usize, into: &mut [u128])
    requires room { length into.old ≡ 8 }
    requires open { is_closed time.now ≡ false }
    requires limit { at ≤ BUDGET_LIMIT + 1 }
    requires reach { at + 8 ≤ length row.now + least_tick time.now }
    ensures { (j : ℕ) → j < 8 → slice_index into.new j
        ≡ weighed (λ u. slice_index row.now u) (at + j) time.now }
{
    let pairs = time.pairs();
    let front = pairs_within(time, at as u32);
    pair_sums(front, row, at, into);
    let late = pairs_within(time, at as u32 + 7);
    let (_, edge) = late.split_at(front.len());
    if !edge.is_empty() {
        for j in 0..8 {
            into[j] += sum_at(edge, row, at + j);
        }
    }
}

/// The same at eight budgets, of values from a base on.
fn tile_at(time: &Histogram, row: &[Grain], base: u32, budget: u32, into: &mut [u128])
    requires room { length into.old ≡ 8 }
    requires open { is_closed time.now ≡ false }
    requires limit { budget ≤ BUDGET_LIMIT + 1 }
    requires above { base ≤ budget }
    requires reach { budget + 8 ≤ base + length row.now + least_tick time.now }
    ensures sums { (j : ℕ) → j < 8 → slice_index into.new j
        ≡ weighed (row_at row.now base) (budget + j) time.now }
    ensures room { length into.new ≡ 8 }
{
    tile_sums(time, row, (budget - base) as usize, into);
}

/// The sum of an arc at a budget, of values from a base on.
fn budget_sum(time: &Histogram, row: &[Grain], base: u32, budget: u32) -> u128
    ensures { result ≡ weighed (row_at row.now base) budget time.now }
{
    let pairs = time.pairs();
    if budget < base {
        return 0;
    }
    sum_at(pairs, row, (budget - base) as usize)
}

/// The sums of an arc at budgets in a row, one by one.
fn single_sums(time: &Histogram, row: &[Grain], base: u32, from: u32, into: &mut [u128])
    requires limit { from + length into.old ≤ BUDGET_LIMIT + 1 }
    ensures sums { (x : ℕ) → x < length into.old → slice_index into.new x
        ≡ weighed (row_at row.now base) (from + x) time.now }
    ensures room { length into.new ≡ length into.old }
{
    for place in 0..into.len() {
        into[place] = budget_sum(time, row, base, from + place as u32);
    }
}

/// The sums of an open arc at up to eight budgets in a row: in lanes where the row allows it, at
/// the eight budgets that end with the last of these.
fn few_sums(time: &Histogram, row: &[Grain], base: u32, from: u32, into: &mut [u128])
    requires few_places { length into.old ≤ 8 }
    requires open { is_closed time.now ≡ false }
    requires limit { from + length into.old ≤ BUDGET_LIMIT + 1 }
    ensures sums { (x : ℕ) → x < length into.old → slice_index into.new x
        ≡ weighed (row_at row.now base) (from + x) time.now }
    ensures room { length into.new ≡ length into.old }
{
    let reach = base as usize + row.len() + time.least().get() as usize;
    let stop = from as usize + into.len();
    if base as usize + TILE <= stop && stop <= reach {
        let mut tile = [0u128; TILE];
        tile_at(time, row, base, (stop - TILE) as u32, &mut tile);
        let (_, last) = tile.split_at(TILE - into.len());
        into.copy_from_slice(last);
    } else {
        single_sums(time, row, base, from, into);
    }
}

/// The sums of an arc at budgets in a row, from `from` on, over the values at its head: those of a
/// row from its base on, and 0 below it.
pub fn arc_sums(time: &Histogram, row: &[Grain], base: u32, from: u32, into: &mut [u128])
    requires limit { from + length into.old ≤ BUDGET_LIMIT + 1 }
    ensures sums { (x : ℕ) → x < length into.old → slice_index into.new x
        ≡ weighed (row_at row.now base) (from + x) time.now }
    ensures room { length into.new ≡ length into.old }
{
    if time.is_closed() {
        into.fill(0);
        return;
    }
    if time.pairs().len() == 1 {
        single_sums(time, row, base, from, into);
        return;
    }
    let count = into.len();
    let mut done = 0;
    while done < count {
        let end = count.min(done + TILE);
        few_sums(time, row, base, from + done as u32, &mut into[done..end]);
        done = end;
    }
}

/// The sum of an arc at a budget where each value is one: the chance of a tick within the budget.
fn certain_sum(pairs: &[(Tick, Mass)], budget: u32) -> u128
    requires few { total pairs.now ≤ SCALE_LIMIT }
    ensures value { result ≡ weighed (λ u. ONE) budget pairs.now }
    ensures within { result ≤ total pairs.now * ONE }
{
    let mut sum = 0;
    for (tick, mass) in pairs {
        if tick.get() <= budget {
            sum += u128::from(mass.get()) * u128::from(Grain::ONE.get());
        }
    }
    sum
}

/// The sums of an arc to the destination at budgets in a row, from `from` on.
pub fn certain_sums(time: &Histogram, from: u32, into: &mut [u128])
    requires limit { from + length into.old ≤ BUDGET_LIMIT + 1 }
    ensures sums { (x : ℕ) → x < length into.old
        → slice_index into.new x ≡ weighed (λ u. ONE) (from + x) time.now }
    ensures room { length into.new ≡ length into.old }
{
    let pairs = time.pairs();
    for place in 0..into.len() {
        into[place] = certain_sum(pairs, from + place as u32);
    }
}
