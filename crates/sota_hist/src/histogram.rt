// The chances of the times that an arc takes: how they are made, and what is read of them.
ghost use Rattle.std.specs.Prelude.{◌≡◌, ◌≤◌, ◌<◌, ◌^◌, ◌↔◌, [], ◌∷◌, length, false, None};
ghost use Rattle.std.specs.Prelude.{IfErr, IfOk, IfSome, IsNone, OnOk};
ghost use Rattle.std.specs.List.Sorted.{IsPermutation};
ghost use Rattle.sota_units.specs.Memory.{IsFault};
ghost use Rattle.sota_units.specs.Rounding.{SCALE_LIMIT};
ghost use Rattle.sota_hist.specs.Time.{IsTime, is_closed, total, least_tick, greatest_tick};
ghost use Rattle.sota_hist.specs.Time.{within, before, first_difference, picked};
ghost use Rattle.sota_hist.specs.Build.{positive, time_of, exact_fault, at_most_fault, is_shortage};

use crate::HistFault;
use crate::difference::first_difference_of;
use crate::pairs::Pairs;
use crate::sorted::{rising_pairs, total_of};
use sota_units::{Mass, NoMemory, Scale, Tick};
use std::alloc::Global;
use std::marker::Model;
use std::mem;

/// The chances of each time that an arc takes: pairs of a tick and a mass, in rising ticks. What
/// the masses lack of the scale is the chance that a traversal never ends. Without a pair it never
/// does, and the histogram is closed.
#[derive(Drop)]
pub struct Histogram {
    pairs: Pairs,
}

impl Model for Histogram {
    ghost use Rattle.std.specs.Prelude.{List, ℕ, ◌≤◌};
    ghost use Rattle.sota_units.specs.Rounding.{SCALE_LIMIT};
    ghost use Rattle.sota_hist.specs.Time.{IsTime, total};
    ghost use Rattle.sota_hist.specs.Pairs.{pairs_in};

    ghost Value = { List (ℕ × ℕ) };

    ghost view = { λ a. pairs_in a.pairs };

    ghost invariant = { λ a. IsTime (pairs_in a.pairs) × (total (pairs_in a.pairs) ≤ SCALE_LIMIT) };
}

impl Histogram {
    /// The histogram of these pairs over a scale that their masses add up to: those of positive
    /// mass, in rising ticks. Pairs of mass 0 are dropped, whatever their tick. The faults stand
    /// in the order of `HistFault`, and Sum comes exactly where the total is not the scale. Linear
    /// but for a sort by ticks.
    pub fn build(
        alloc: Global,
        scale: Scale,
        pairs: &[(Tick, Mass)],
    ) -> Result<Histogram, HistFault>
        requires { length pairs.now < 2 ^ 32 }
        ensures ok { OnOk result (exact_fault scale pairs.now ≡ None) }
        ensures time { IfOk result (λ time. time ≡ time_of pairs.now) }
        ensures fault { IfErr result (λ fault.
            IsFault is_shortage (exact_fault scale pairs.now) fault) }

        // What `time` says besides: a histogram rises, and has these pairs.
        ensures pairs { IfOk result (λ time. IsPermutation (positive pairs.now) time) }
        ensures total { IfOk result (λ time. total time ≡ scale) }
    {
        let sorted = rising_pairs(alloc, pairs)?;
        let sum = total_of(&sorted);
        if sum != u64::from(scale.get()) {
            return Err(HistFault::Sum(sum));
        }
        let time = Histogram::from_rising(alloc, &sorted)?;
        Ok(time)
    }

    /// The same over a scale that the masses may fall short of: Sum comes exactly where the total
    /// exceeds the scale. Without a pair of positive mass the histogram is closed.
    pub fn at_most(
        alloc: Global,
        scale: Scale,
        pairs: &[(Tick, Mass)],
    ) -> Result<Histogram, HistFault>
        requires { length pairs.now < 2 ^ 32 }
        ensures ok { OnOk result (at_most_fault scale pairs.now ≡ None) }
        ensures time { IfOk result (λ time. time ≡ time_of pairs.now) }
        ensures fault { IfErr result (λ fault.
            IsFault is_shortage (at_most_fault scale pairs.now) fault) }

        // What `time` says besides: a histogram rises, and has these pairs.
        ensures pairs { IfOk result (λ time. IsPermutation (positive pairs.now) time) }
        ensures total { IfOk result (λ time. total time ≤ scale) }
    {
        let sorted = rising_pairs(alloc, pairs)?;
        let sum = total_of(&sorted);
        if sum > u64::from(scale.get()) {
            return Err(HistFault::Sum(sum));
        }
        let time = Histogram::from_rising(alloc, &sorted)?;
        Ok(time)
    }

    /// All mass at one tick.
    pub fn certain(alloc: Global, scale: Scale, tick: Tick) -> Result<Histogram, NoMemory>
        requires { 1 ≤ tick }
        ensures { IfOk result (λ time. time ≡ (tick, scale) ∷ []) }
    {
        Histogram::from_rising(alloc, &[(tick, Mass(scale.get()))])
    }

    /// The histogram without a pair. It takes no memory.
    pub fn closed() -> Histogram
        ensures { result ≡ [] }
    {
        Histogram {
            pairs: Pairs::Closed,
        }
    }

    /// The histogram of pairs that are in order already: rising ticks of at least 1, and masses of
    /// at least 1.
    pub fn from_rising(alloc: Global, pairs: &[(Tick, Mass)]) -> Result<Histogram, NoMemory>
        requires rising { IsTime pairs.now }
        requires total { total pairs.now ≤ SCALE_LIMIT }
        ensures { IfOk result (λ time. time ≡ pairs.now) }
    {
        let pairs = Pairs::from_slice(alloc, pairs)?;
        Ok(Histogram { pairs })
    }

    /// An equal histogram.
    pub fn copy(&self, alloc: Global) -> Result<Histogram, NoMemory>
        ensures { IfOk result (λ time. time ≡ self.now) }
    {
        Histogram::from_rising(alloc, self.pairs())
    }

    /// Puts another histogram in the place of this one, and hands this one back. It takes no
    /// memory.
    pub fn replace(&mut self, time: Histogram) -> Histogram
        ensures old { result ≡ self.old }
        ensures new { self.new ≡ time }
        ensures valid { IsTime self.new }
    {
        Histogram {
            pairs: mem::replace(&mut self.pairs, time.pairs),
        }
    }

    /// The pairs, in rising ticks. There is at most one for each mass of the total.
    #[tactic(auto, using(crate::proofs::Ticks::readings))]
    pub fn pairs(&self) -> &[(Tick, Mass)]
        ensures value { result.now ≡ self.now }
        ensures valid { IsTime result.now }
        ensures within { total result.now ≤ SCALE_LIMIT }
        ensures few { length result.now ≤ SCALE_LIMIT }
    {
        self.pairs.as_slice()
    }

    /// Whether there is no pair, so that no traversal ever ends.
    pub fn is_closed(&self) -> bool
        ensures { result ≡ is_closed self.now }
    {
        self.pairs().is_empty()
    }

    /// The sum of the masses.
    pub fn total(&self) -> u64
        ensures value { result ≡ total self.now }
        ensures within { result ≤ SCALE_LIMIT }
    {
        total_of(self.pairs())
    }

    /// The least tick of an open histogram.
    pub fn least(&self) -> Tick
        requires { is_closed self.now ≡ false }
        ensures value { result ≡ least_tick self.now }
        ensures positive { 1 ≤ result }
    {
        self.pairs()[0].0
    }

    /// The greatest tick of an open histogram.
    pub fn greatest(&self) -> Tick
        requires { is_closed self.now ≡ false }
        ensures value { result ≡ greatest_tick self.now }
        ensures positive { 1 ≤ result }
    {
        let pairs = self.pairs();
        pairs[pairs.len() - 1].0
    }

    /// The pairs at ticks of at most the limit.
    pub fn within(&self, limit: Tick) -> &[(Tick, Mass)]
        ensures { result.now ≡ within limit self.now }
    {
        let pairs = self.pairs();
        let end = pairs.partition_point(|pair| pair.0 <= limit);
        &pairs[..end]
    }

    /// The least tick at which the masses of both differ, the mass at an absent tick being 0. None
    /// exactly where they are equal.
    pub fn first_difference(&self, other: &Histogram) -> Option<Tick>
        ensures value { result ≡ first_difference self.now other.now }
        ensures same { IsNone result ↔ (self.now ≡ other.now) }
        ensures before { IfSome result (λ tick. before tick self.now ≡ before tick other.now) }
    {
        first_difference_of(self.pairs(), other.pairs())
    }

    /// The first tick whose cumulated mass exceeds the draw. None exactly where the draw is at
    /// least the total.
    pub fn pick(&self, draw: u32) -> Option<Tick>
        ensures value { result ≡ picked draw self.now }
        ensures none { IsNone result ↔ (total self.now ≤ draw) }
    {
        let mut sum = 0;
        for pair in self.pairs() {
            sum += u64::from(pair.1.get());
            if sum > u64::from(draw) {
                return Some(pair.0);
            }
        }
        None
    }
}
