//! The bank of rows.
ghost use Rattle.std.specs.Prelude.{◌≡◌, ◌+◌, ◌-◌, ◌^◌, ◌<◌, ◌≤◌, ℕ, List, [], ◌∷◌, ◌++◌};
ghost use Rattle.std.specs.Prelude.{length, take, drop, sum, slice_index, slice_range};
ghost use Rattle.std.specs.Prelude.{IfOk, OnOk, OnErr};
ghost use Rattle.std.specs.Borrow.{sem};
ghost use Rattle.sota_bank.specs.Rows.{list_at, cap_at, with_list, lists, capacities};
ghost use Rattle.sota_bank.specs.Rows.{empty_rows, AllWithin, overwritten};
ghost use Rattle.sota_bank.specs.Layout.{AreEmpty};

use crate::region::Region;
use sota_units::{NoMemory, Steps};
use std::alloc::Global;
use std::marker::Model;
use std::sync::ledger::Ledger;

/// Where a row lies: its first place, how many of its places are written, and how many it has.
#[derive(Clone, Copy)]
struct Chunk {
    start: u32,
    len: u32,
    cap: u32,
}

/// Rows of unequal length in one allocation. A contract sees the list of the rows, each a list with
/// a capacity.
#[derive(Drop)]
pub struct RowBank<T: Copy> {
    chunks: Vec<Chunk>,
    region: Region<T>,
}

impl<T: Copy> Model for RowBank<T> {
    ghost use Rattle.std.specs.Prelude.{List};
    ghost use Rattle.std.specs.Coded.{coded_list};
    ghost use Rattle.sota_bank.specs.Rows.{Row, row_code};

    ghost Value = { List (Row T) };

    ghost coded = { coded_list (row_code T.code) };

    ghost use Rattle.sota_bank.specs.Layout.{rows_in, IsLaidOut};

    ghost view = { λ b. rows_in b.chunks.items b.region };

    ghost invariant = { λ b. IsLaidOut b.chunks.items b.region };
}

/// One chunk a capacity, each empty, one after another, and how many places they take together.
fn empty_chunks(alloc: Global, caps: &[u32]) -> Result<(Vec<Chunk>, u32), NoMemory>
    requires { sum caps.now ≤ 2 ^ 31 }
    ensures { IfOk result (λ r. AreEmpty r.0.items caps.now × (r.1 ≡ sum caps.now)) }
{
    let mut chunks = Vec::with_capacity(alloc, caps.len())?;
    let mut start: u32 = 0;
    for cap in caps {
        chunks.push(Chunk {
            start,
            len: 0,
            cap: *cap,
        })?;
        start += *cap;
    }
    Ok((chunks, start))
}

impl<T: Copy> RowBank<T> {
    ghost use Rattle.sota_bank.specs.BankLends.{lends_window};

    /// Empty rows with these capacities. It is refused only where there is no memory.
    pub fn new(alloc: Global, caps: &[u32]) -> Result<RowBank<T>, NoMemory>
        requires { sum caps.now ≤ 2 ^ 31 }
        ensures { IfOk result (λ bank. bank ≡ empty_rows caps.now) }
    {
        let (chunks, places) = empty_chunks(alloc, caps)?;
        let region = Region::new(alloc, places as usize)?;
        Ok(RowBank { chunks, region })
    }

    /// Moves the list of the row from the other bank to the same row here.
    fn take_row(&mut self, other: &mut RowBank<T>, row: usize)
        requires rows { (row < length self.old) × (row < length other.old) }
        requires room { length (list_at other.old row) ≤ cap_at self.old row }
        ensures here { self.new ≡ with_list self.old row (list_at other.old row) }
        ensures there { other.new ≡ with_list other.old row [] }
    {
        let from = other.chunks[row];
        let to = self.chunks[row];
        other.region.move_run(
            from.start as usize,
            &mut self.region,
            to.start as usize,
            from.len as usize,
        );
        other.chunks[row] = Chunk { len: 0, ..from };
        self.chunks[row] = Chunk {
            len: from.len,
            ..to
        };
    }

    /// Gives the rows these capacities: all lists move to a new allocation, each in one block copy.
    /// Where there is no memory all is unchanged.
    pub fn regrow(&mut self, caps: &[u32]) -> Result<(), NoMemory>
        requires rows { length caps.now ≡ length self.old }
        requires room { (row : ℕ) → row < length self.old
            → length (list_at self.old row) ≤ slice_index caps.now row }
        requires total { sum caps.now ≤ 2 ^ 31 }
        ensures lists { OnOk result (lists self.new ≡ lists self.old) }
        ensures capacities { OnOk result (capacities self.new ≡ caps.now) }
        ensures unchanged { OnErr result (self.new ≡ self.old) }
    {
        let mut grown = RowBank::new(self.region.allocator(), caps)?;
        for row in 0..caps.len() {
            grown.take_row(self, row);
        }
        *self = grown;
        Ok(())
    }

    /// The number of rows.
    pub fn rows(&self) -> usize
        ensures rows { result ≡ length self.now }
        ensures within { AllWithin self.now }
    {
        self.chunks.len()
    }

    /// The length of the row's list.
    pub fn len(&self, row: usize) -> u32
        requires { row < length self.now }
        ensures { result ≡ length (list_at self.now row) }
    {
        self.chunks[row].len
    }

    /// How many entries the row may have.
    pub fn cap(&self, row: usize) -> u32
        requires { row < length self.now }
        ensures cap { result ≡ cap_at self.now row }
        ensures within { length (list_at self.now row) ≤ result }
    {
        self.chunks[row].cap
    }

    /// The row's whole list.
    pub fn front(&self, row: usize) -> &[T]
        requires { row < length self.now }
        ensures { result.now ≡ list_at self.now row }
    {
        let chunk = self.chunks[row];
        self.region.slice(chunk.start as usize, chunk.len as usize)
    }

    /// The part of the row's list from the index `from` up to `to`, for writing.
    pub fn window(&mut self, row: usize, from: u32, to: u32) -> &mut [T]
        requires row { row < length self.old }
        requires part { (from ≤ to) × (to ≤ length (list_at self.old row)) }
        ensures* writes_back { sem 𝓛 (lends_window T.row self.entry row from to result) }
        ensures value { result.now ≡ slice_range (list_at self.old row) from to }
        // What is written has the length of the window, so it stands there as it is.
        ensures as_written { let list = list_at self.old row in
            (ws : List T) → length ws ≡ to - from
            → overwritten list from to ws ≡ take from list ++ (ws ++ drop to list) }
    {
        let chunk = self.chunks[row];
        self.region
            .slice_mut(chunk.start as usize + from as usize, (to - from) as usize)
    }

    /// Appends an entry to the row, and counts the push.
    pub fn push<P: Ledger>(&mut self, row: usize, value: T, pushes: &mut Steps<P>)
        requires row { row < length self.old }
        requires room { length (list_at self.old row) < cap_at self.old row }
        ensures rows { self.new ≡ with_list self.old row (list_at self.old row ++ value ∷ []) }
        ensures count { pushes.new ≡ pushes.old + 1 }
    {
        let chunk = self.chunks[row];
        self.region
            .write(chunk.start as usize + chunk.len as usize, value);
        self.chunks[row] = Chunk {
            len: chunk.len + 1,
            ..chunk
        };
        pushes.tick();
    }

    /// Appends entries to the row, and counts as many pushes.
    pub fn append<P: Ledger>(&mut self, row: usize, values: &[T], pushes: &mut Steps<P>)
        requires row { row < length self.old }
        requires room { length (list_at self.old row) + length values.now ≤ cap_at self.old row }
        ensures rows { self.new ≡ with_list self.old row (list_at self.old row ++ values.now) }
        ensures count { pushes.new ≡ pushes.old + length values.now }
    {
        let chunk = self.chunks[row];
        self.region
            .write_all(chunk.start as usize + chunk.len as usize, values);
        self.chunks[row] = Chunk {
            len: chunk.len + values.len() as u32,
            ..chunk
        };
        pushes.add(values.len() as u64);
    }

    /// Keeps the first `count` entries of the row, or all where there are fewer.
    pub fn cut(&mut self, row: usize, count: u32)
        requires { row < length self.old }
        ensures { self.new ≡ with_list self.old row (take count (list_at self.old row)) }
    {
        let chunk = self.chunks[row];
        self.chunks[row] = Chunk {
            len: chunk.len.min(count),
            ..chunk
        };
    }
}
