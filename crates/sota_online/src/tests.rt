// Both forms on the same values.
ghost use Rattle.std.specs.Prelude.{◌≡◌, ◌<◌, ◌≤◌, length, false};
ghost use Rattle.sota_hist.specs.Time.{is_closed};

use crate::{BlockSummer, PlainSummer, Summer, Workspace};
use sota_hist::Histogram;
use sota_units::{Grain, Mass, NoMemory, Scale, Steps, Tick};
use std::alloc::Global;
use std::marker::Brand;
use std::process::Abort;
use std::sync::ledger::{Blank, Ledger};
use std::test::Fail;

// The sums at each position from a start on, as soon as it is known, and then all at once of a
// summer that is fed all values at once.
fn sums_of<S: Summer, M: Ledger>(
    alloc: Global,
    time: &Histogram,
    values: &[Grain],
    start: u32,
    products: &mut Steps<M>,
) -> Result<Vec<u128>, NoMemory>
    requires open { is_closed time.now ≡ false }
    requires length { length values.now ≤ 65536 }
    requires start { 1 ≤ start }
{
    let mut summer = S::make(alloc, time, values.len() as u32, start)?;
    let mut sums = vec![in alloc; 0u128; 0]?;
    for value in values {
        if summer.room() == 0 {
            return Ok(sums);
        }
        let mut workspace = Workspace::make(alloc, summer.span())?;
        summer.feed(*value, &mut workspace, products);
        let position = summer.fed();
        if position >= start {
            sums.push(summer.sum(position).get())?;
        }
    }
    let mut whole = S::make(alloc, time, values.len() as u32, start)?;
    let mut workspace = Workspace::make(alloc, whole.span())?;
    whole.feed_all(values, &mut workspace, products);
    let known = whole.fed() as usize + 1;
    let mut all = vec![in alloc; 0u128; known.saturating_sub(start as usize)]?;
    if start as usize <= known {
        whole.sums(start, &mut all);
    }
    sums.extend_from_slice(&all)?;
    Ok(sums)
}

// The sums of both forms, which must be equal: one for each value, and each once more. The sums by
// squares are read from a start on.
fn both<M: Ledger>(
    rt: &impl Abort,
    alloc: Global,
    time: &Histogram,
    values: &[Grain],
    start: u32,
    products: &mut Steps<M>,
) -> Result<Vec<u128>, Fail> {
    if start == 0 || time.is_closed() || values.len() > 65536 {
        return Err(Fail::from("no start, a closed histogram, or too many values"));
    }
    let block = sums_of::<BlockSummer, M>(alloc, time, values, start, products)
        .ok()
        .ok_or("sums by squares")?;
    let plain = sums_of::<PlainSummer, M>(alloc, time, values, 1, products)
        .ok()
        .ok_or("plain sums")?;
    let (first, second) = plain.split_at(plain.len() / 2);
    assert_eq!(rt; first.len(), values.len());
    assert_eq!(rt; first, second);
    let late = first.get(start as usize - 1..).unwrap_or(&[]);
    let (each, all) = block.split_at(block.len() / 2);
    assert_eq!(rt; each, late);
    assert_eq!(rt; all, late);
    Ok(plain)
}

// The histogram of some masses, whose scale is their sum.
fn time_of(alloc: Global, pairs: &[(Tick, Mass)]) -> Result<Histogram, Fail> {
    if pairs.len() > 1000 {
        return Err(Fail::from("too many masses"));
    }
    let mut sum = 0u32;
    for (_, mass) in pairs {
        sum = sum.wrapping_add(mass.get());
    }
    let scale = Scale::new(sum).ok_or("a scale")?;
    Ok(Histogram::build(alloc, scale, pairs)?)
}

// The masses 3 at tick 3 and 1 at tick 5: with three ones the sums are 3, 3 and 4 wholes.
fn third_arc<M: Ledger>(
    rt: &impl Abort,
    alloc: Global,
    products: &mut Steps<M>,
) -> Result<(), Fail> {
    let time = time_of(alloc, &[(Tick(3), Mass(3)), (Tick(5), Mass(1))])?;
    let sums = both(rt, alloc, &time, &[Grain::ONE; 3], 1, products)?;
    let one = 1_000_000_000_000_000_000u128;
    let wanted = [3 * one, 3 * one, 4 * one, 3 * one, 3 * one, 4 * one];
    assert_eq!(rt; sums.as_slice(), wanted.as_slice());
    Ok(())
}

// Two roads in a row that each take 1 to 33 ticks, all equally likely: by the second alone the
// chance within t ticks is t of 33. Position p stands for a budget of p + 1 ticks over both.
fn chain<M: Ledger>(rt: &impl Abort, alloc: Global, products: &mut Steps<M>) -> Result<(), Fail> {
    let time = time_of(alloc, &spread(alloc, 33, 1, 0)?)?;
    let mut values = vec![in alloc; Grain::ONE; 0]?;
    for tick in 1..71u32 {
        let part = u128::from(tick.min(33)) * 1_000_000_000_000_000_000 / 33;
        values.push(Grain::new(part as u64).unwrap_or(Grain::ZERO))?;
    }
    let sums = both(rt, alloc, &time, &values, 1, products)?;
    for (budget, chance) in [
        (33, 484_848_484_848_484_848),
        (50, 875_114_784_205_693_296),
        (70, 1_000_000_000_000_000_000),
    ] {
        let sum = sums.get(budget - 2).copied().unwrap_or(0);
        assert_eq!(rt; sum / 33, chance, "within {budget} ticks");
    }
    Ok(())
}

// A mass at one in so many ticks of a span; masses differ by as much as `spread` says.
fn spread(alloc: Global, span: u32, step: u32, spread: u32) -> Result<Vec<(Tick, Mass)>, NoMemory> {
    let mut pairs = vec![in alloc; (Tick(0), Mass(0)); 0]?;
    for place in 0..span {
        if place.checked_rem(step) == Some(0) {
            let more = place.wrapping_mul(spread) % 1000;
            pairs.push((Tick(place.wrapping_add(1)), Mass(more + 1)))?;
        }
    }
    Ok(pairs)
}

// Kernels with a mass at each so many ticks: their span, the step, how many values are fed, and
// from which position on sums are read.
const KERNELS: [(u32, u32, usize, u32); 11] = [
    (1, 1, 9, 1),
    (64, 10, 500, 1),
    (200, 7, 300, 1),
    (300, 1, 400, 1),
    (1000, 1, 2000, 1),
    (1000, 10, 2000, 1),
    (1000, 1, 2000, 1281),
    (1000, 10, 2000, 1500),
    (300, 10, 400, 450),
    (50, 1, 21, 1),
    (50, 1, 0, 1),
];

fn kernels<M: Ledger>(rt: &impl Abort, alloc: Global, products: &mut Steps<M>) -> Result<(), Fail> {
    let mut values = vec![in alloc; Grain::ZERO; 0]?;
    let mut seed = 1u64;
    for _ in 0..2000 {
        seed = seed.wrapping_mul(6364136223846793005).wrapping_add(1);
        let value = Grain::new(seed % 1_000_000_000_000_000_001);
        values.push(value.unwrap_or(Grain::ZERO))?;
    }
    for (span, step, length, start) in KERNELS {
        let time = time_of(alloc, &spread(alloc, span, step, 7919)?)?;
        let values = values.get(..length).ok_or("so many values")?;
        both(rt, alloc, &time, values, start, products)?;
    }
    Ok(())
}

fn all<M: Ledger>(rt: &impl Abort, alloc: Global, blank: Blank) -> Result<(), Fail>
    requires name { blank.name ≡ M.name }
    requires parts { blank.parts ≡ M.parts }
    requires some { 0 < blank.parts }
{
    let mut products = Steps::<M>::new(blank);
    third_arc(rt, alloc, &mut products)?;
    chain(rt, alloc, &mut products)?;
    kernels(rt, alloc, &mut products)
}

#[test]
fn both_forms(rt: HostRuntime) -> Result<(), Fail> {
    all::<Brand>(&rt, rt.alloc(), Blank::new(1))
}
