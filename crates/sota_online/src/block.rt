// Sums by squares.
ghost use Rattle.std.specs.Prelude.{◌≡◌, ℕ, ◌≤◌, ◌<◌, ◌+◌, ◌-◌, ◌*◌, ◌^◌, [], length, slice_index};
ghost use Rattle.std.specs.Prelude.{false, true, IfOk, ◌%◌, ◌⊎◌, take};
ghost use Rattle.sota_units.specs.Rounding.{HEFT_LIMIT};
ghost use Rattle.sota_hist.specs.Time.{is_closed};
ghost use Rattle.sota_online.specs.Summer.{plain, fed_more, fed_all};
ghost use Rattle.sota_online.specs.Squares.{square_counts, feeds_count};

use crate::halves::{add_halves, joined};
use crate::kernel::{kernel_masses, skips_of};
use crate::levels::work_off;
use crate::square::some_masses;
use crate::sums::{plain_sum, plain_sums};
use crate::values::put;
use crate::{Summer, Workspace};
use sota_hist::Histogram;
use sota_units::{Grain, Heft, NoMemory, Steps};
use std::alloc::Global;
use std::marker::Model;
use std::sync::ledger::Ledger;

/// A summer that works by squares. Masses and values are numbered, masses from 1 and values from 0,
/// and a square is made of the masses from a power of two up to the next and of as many values, a
/// whole block of them. It is worked off when its block is complete, and it lands at positions
/// after the block, so what squares make of a sum is there when it is asked for. The smallest
/// squares would cost more than they save: `sum` and `sums` add the products of the first 31 masses
/// themselves, or of the first 127 where many of these are not 0. A short kernel has no squares.
/// No counter counts what is added so. Squares that land wholly before the start are left out.
#[derive(Drop)]
pub struct BlockSummer {
    masses: Vec<u32>,
    // At each place of the kernel, where its next mass is that is not 0.
    skips: Vec<u32>,
    // The level and the size of the smallest squares: two to the level.
    first: u32,
    smallest: usize,
    values: Vec<u64>,
    fed: usize,
    start: usize,
    // The sums by positions, of the lower and of the upper halves of values.
    low: Vec<u64>,
    high: Vec<u64>,
}

impl Model for BlockSummer {
    ghost use Rattle.std.specs.Prelude.{◌-◌, length, take};
    ghost use Rattle.sota_online.specs.Summer.{SummerState};
    ghost use Rattle.sota_online.specs.Squares.{IsWorkedOff};

    ghost Value = { SummerState };

    ghost view = { λ s. record {
      kernel = s.masses.items;
      values = take s.fed s.values.items;
      room = length s.values.items - s.fed;
      start = s.start;
    } };

    ghost invariant = { λ s. IsWorkedOff s.masses.items s.skips.items s.first s.smallest
        s.values.items s.fed s.start s.low.items s.high.items };
}

impl Summer for BlockSummer {
    ghost state = { λ s. s };

    fn make(alloc: Global, time: &Histogram, length: u32, start: u32) -> Result<Self, NoMemory> {
        let masses = kernel_masses(alloc, time, length)?;
        let skips = skips_of(alloc, &masses)?;
        let (first, smallest) = smallest_square(&masses);
        let values = vec![in alloc; 0; length as usize]?;
        let places = places_of(masses.len(), smallest, length);
        let low = vec![in alloc; 0; places]?;
        let high = vec![in alloc; 0; places]?;
        Ok(BlockSummer {
            masses,
            skips,
            first,
            smallest,
            values,
            fed: 0,
            start: start as usize,
            low,
            high,
        })
    }

    fn fed(&self) -> u32 {
        self.fed as u32
    }

    fn room(&self) -> u32 {
        (self.values.len() - self.fed) as u32
    }

    fn span(&self) -> u32 {
        self.masses.len() as u32
    }

    fn feed<M: Ledger>(&mut self, value: Grain, workspace: &mut Workspace, products: &mut Steps<M>)
        requires room { 1 ≤ self.old.room }
        requires work { length self.old.kernel ≤ workspace.old }
        ensures state { self.new ≡ fed_more value self.old }
        ensures work { workspace.new ≡ workspace.old }

        // Of each whole block that it ends, as many products as a folded product takes, and no
        // more.
        ensures count { products.new
            ≤ products.old + square_counts (length self.old.kernel) (length self.new.values) }
    {
        self.feed_some(&[value], workspace, products);
    }

    fn feed_all<M: Ledger>(
        &mut self,
        values: &[Grain],
        workspace: &mut Workspace,
        products: &mut Steps<M>,
    )
        requires room { length values.now ≤ self.old.room }
        requires work { length self.old.kernel ≤ workspace.old }
        ensures state { self.new ≡ fed_all values.now self.old }
        ensures work { workspace.new ≡ workspace.old }
        ensures count { products.new ≤ products.old + feeds_count (length self.old.kernel)
            (length self.old.values) (length values.now) }
    {
        let mut done = 0;
        while done < values.len() {
            done += self.feed_some(&values[done..], workspace, products);
        }
    }

    fn sum(&self, position: u32) -> Heft {
        let place = position as usize;
        if self.masses.len() < self.smallest {
            return plain_sum(&self.masses, &self.values[..self.fed], place);
        }
        let near = &self.masses[..self.smallest - 1];
        let sum = plain_sum(near, &self.values[..self.fed], place);
        joined(self.low[place], self.high[place]).plus(sum)
    }

    fn sums(&self, from: u32, into: &mut [u128]) {
        let from = from as usize;
        if self.masses.len() < self.smallest {
            return plain_sums(&self.masses, &self.values[..self.fed], from, into);
        }
        let end = from + into.len();
        let near = &self.masses[..self.smallest - 1];
        plain_sums(near, &self.values[..self.fed], from, into);
        add_halves(&self.low[from..end], &self.high[from..end], into);
    }
}

impl BlockSummer {
    // Feeds values up to the end of a block, and works off the squares that the block makes whole.
    // Gives how many it fed.
    #[inline(always)]
    fn feed_some<M: Ledger>(
        &mut self,
        values: &[Grain],
        workspace: &mut Workspace,
        products: &mut Steps<M>,
    ) -> usize
        requires some { 1 ≤ length values.now }
        requires room { length values.now ≤ self.old.room }
        requires work { length self.old.kernel ≤ workspace.old }
        ensures some { 1 ≤ result }
        ensures within { result ≤ length values.now }
        ensures state { self.new ≡ fed_all (take result values.now) self.old }
        ensures work { workspace.new ≡ workspace.old }
        ensures count { products.new
            ≤ products.old + square_counts (length self.old.kernel) (length self.new.values) }
    {
        let span = self.masses.len();
        let rest = rest_of_block(span, self.first, self.smallest, self.fed);
        let count = values.len().min(rest);
        let end = self.fed + count;
        put(&values[..count], &mut self.values, self.fed);
        self.fed = end;
        if ends_block(span, self.first, self.smallest, end) {
            work_off(
                &self.masses,
                &self.skips,
                self.first,
                self.smallest,
                &self.values[..end],
                self.start,
                &mut self.low,
                &mut self.high,
                workspace,
                products,
            );
        }
        count
    }
}

// How many values end the block that is begun. Where the kernel is too short for a square no block
// ends.
#[inline(always)]
fn rest_of_block(span: usize, first: u32, smallest: usize, fed: usize) -> usize
    requires { smallest ≡ 2 ^ first }
    ensures some { 1 ≤ result }
    ensures whole { smallest ≤ span → fed % 2 ^ first + result ≡ 2 ^ first }
{
    if span < smallest {
        return usize::MAX;
    }
    smallest - (fed & (smallest - 1))
}

// How many places each row of sums has: none where the kernel is too short for a square.
fn places_of(span: usize, smallest: usize, length: u32) -> usize
    requires { length ≤ 65536 }
    ensures room { smallest ≤ span → length < result }
    ensures eights { result % 8 ≡ 0 }
{
    if span < smallest {
        return 0;
    }
    (length as usize / 8 + 1) * 8
}

// Whether so many values end a block, and the kernel is long enough for a square.
#[inline(always)]
fn ends_block(span: usize, first: u32, smallest: usize, fed: usize) -> bool
    requires { smallest ≡ 2 ^ first }
    ensures long { result ≡ true → smallest ≤ span }
    ensures whole { result ≡ true → fed % 2 ^ first ≡ 0 }
    ensures idle { result ≡ false → (span < smallest) ⊎ (fed % 2 ^ first ≡ 0 → ⊥) }
{
    smallest <= span && fed & (smallest - 1) == 0
}

// The level and the size of the smallest squares of a kernel: level 5 where less than a quarter of
// the first masses is not 0, since few masses cost little, and else level 7. A kernel that squares
// would not make faster, or not by much, is shorter than its smallest square.
fn smallest_square(masses: &[u32]) -> (u32, usize)
    ensures size { result.1 ≡ 2 ^ result.0 }
    ensures first_ge { 3 ≤ result.0 }
    ensures first_le { result.0 ≤ 9 }
{
    let near = masses.len().min(127);
    let few = 4 * some_masses(&masses[..near]) < near;
    if few && masses.len() >= 256 {
        (5, 32)
    } else if masses.len() >= 512 {
        (7, 128)
    } else {
        (9, 512)
    }
}
