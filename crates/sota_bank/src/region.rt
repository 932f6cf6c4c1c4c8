//! A block of places that frees itself, by safe methods.
ghost use Rattle.std.specs.Prelude.{◌≡◌, ◌+◌, ◌^◌, ◌<◌, ◌≤◌, List, Option, Some, None, map, length};
ghost use Rattle.std.specs.Prelude.{take, drop, replicate, slice_set, IfOk};
ghost use Rattle.std.specs.Borrow.{sem};
ghost use Rattle.sota_bank.specs.Places.{IsRun, spliced};

use crate::cells::{Base, Cells, Deed, allocate, deallocate, may_hold};
use sota_units::NoMemory;
use std::alloc::Global;
use std::marker::Model;

/// A block of `len` places in one allocation, each empty or written. A contract sees the list of
/// the places.
pub(crate) struct Region<T: Copy> {
    base: Base<T>,
    len: usize,
    cells: Cells<T>,
    deed: Deed<T, Global>,
    alloc: Global,
}

impl<T: Copy> Model for Region<T> {
    ghost use Rattle.std.specs.Prelude.{List, Option};

    ghost Value = { List (Option T) };

    ghost use Rattle.sota_bank.specs.Region.{IsOneBlock};

    ghost view = { λ r. r.cells.slots };

    ghost invariant = { IsOneBlock };
}

impl<T: Copy> Region<T> {
    ghost use Rattle.sota_bank.specs.RegionLends.{lends_part};

    /// A block of empty places, in a new allocation.
    pub(crate) fn new(alloc: Global, len: usize) -> Result<Region<T>, NoMemory>
        ensures { IfOk result (λ r. r ≡ replicate len None) }
    {
        if !may_hold::<T>(len) {
            return Err(NoMemory);
        }
        let (base, cells, deed) = allocate(&alloc, len)?;
        Ok(Region {
            base,
            len,
            cells,
            deed,
            alloc,
        })
    }

    /// The allocator of the block.
    pub(crate) fn allocator(&self) -> Global {
        self.alloc
    }

    /// Writes the place at `index`.
    pub(crate) fn write(&mut self, index: usize, item: T)
        requires { index < length self.old }
        ensures { self.new ≡ slice_set self.old index (Some item) }
    {
        self.cells.write(self.base, index, item);
    }

    /// Writes the places from `from` on.
    pub(crate) fn write_all(&mut self, from: usize, items: &[T])
        requires inside { from + length items.now ≤ length self.old }
        requires small { length self.old ≤ 2 ^ 31 }
        ensures { self.new ≡ spliced self.old from (length items.now) (map Some items.now) }
    {
        for (index, item) in items.iter().enumerate() {
            self.write(from + index, *item);
        }
    }

    /// The `len` values from the place `from` on.
    pub(crate) fn slice(&self, from: usize, len: usize) -> &[T]
        requires { IsRun self.now from len }
        ensures { take len (drop from self.now) ≡ map Some result.now }
    {
        self.cells.slice(self.base, from, len)
    }

    /// The same, for writing.
    pub(crate) fn slice_mut(&mut self, from: usize, len: usize) -> &mut [T]
        requires { IsRun self.old from len }
        ensures* writes_back { sem 𝓛 (lends_part T.row self.entry from len result) }
        ensures value { take len (drop from self.old) ≡ map Some result.now }
    {
        let base = self.base;
        self.cells.slice_mut(base, from, len)
    }

    /// Moves the `len` values from the place `from` on to the places of `other` from `to` on, in
    /// one block copy.
    pub(crate) fn move_run(&mut self, from: usize, other: &mut Region<T>, to: usize, len: usize)
        requires { IsRun self.old from len × (to + len ≤ length other.old) }
        ensures other { other.new ≡ spliced other.old to len (take len (drop from self.old)) }
        ensures emptied { self.new ≡ spliced self.old from len (replicate len None) }
    {
        self.cells
            .move_run(self.base, from, &mut other.cells, other.base, to, len);
    }
}

// The values are forgotten, which a `Copy` type allows.
impl<T: Copy> Drop for Region<T> {
    fn drop(self) {
        let Region {
            base,
            len,
            cells,
            deed,
            alloc,
        } = self;
        deallocate(&alloc, base, len, cells, deed);
    }
}
