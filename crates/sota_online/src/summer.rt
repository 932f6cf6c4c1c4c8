// Sums over a list of values that grows.
ghost use Rattle.std.specs.Prelude.{◌≡◌, ℕ, ◌+◌, ◌<◌, ◌≤◌, length, slice_index, false, IfOk};
ghost use Rattle.sota_units.specs.Rounding.{HEFT_LIMIT};
ghost use Rattle.sota_hist.specs.Time.{is_closed};
ghost use Rattle.sota_online.specs.Summer.{SummerState, unfed, plain, fed_more, fed_all};

use crate::Workspace;
use sota_hist::Histogram;
use sota_units::{Grain, Heft, NoMemory, Steps};
use std::alloc::Global;
use std::sync::ledger::Ledger;

/// The sums of a kernel and a list of values, in units of `Q` times ten to the eighteenth. Values
/// are fed one after the other, and the sum at a position is known once all values below that
/// position are.
pub trait Summer: Sized + Drop {
    /// Its kernel, the values fed so far, how many more can be fed, and the first position at which
    /// a sum may be read.
    ghost state: { Self → SummerState };

    /// A summer of an open histogram's masses, moved by its least tick, with no value yet and room
    /// for `length` of them. Sums are read from the position `start` on. All memory is taken here.
    fn make(alloc: Global, time: &Histogram, length: u32, start: u32) -> Result<Self, NoMemory>
        requires open { is_closed time.now ≡ false }
        requires length { length ≤ 65536 }
        ensures { IfOk result (λ summer. state summer ≡ unfed length start time.now) };

    /// How many values were fed.
    fn fed(&self) -> u32
        ensures { result ≡ length (state self.now).values };

    /// How many more can be fed.
    fn room(&self) -> u32
        ensures { result ≡ (state self.now).room };

    /// How many places its kernel has, at most 65,536.
    fn span(&self) -> u32
        ensures places { result ≡ length (state self.now).kernel }
        ensures limit { result ≤ 65536 };

    /// One value more. It takes no memory, and works in the room that is lent. What it multiplies
    /// is counted in `products`.
    fn feed<M: Ledger>(&mut self, value: Grain, workspace: &mut Workspace, products: &mut Steps<M>)
        requires room { 1 ≤ (state self.old).room }
        requires work { length (state self.old).kernel ≤ workspace.old }
        ensures state { state self.new ≡ fed_more value (state self.old) }
        ensures work { workspace.new ≡ workspace.old };

    /// Several values more, in their order. As `feed` for each of them, and faster.
    fn feed_all<M: Ledger>(
        &mut self,
        values: &[Grain],
        workspace: &mut Workspace,
        products: &mut Steps<M>,
    )
        requires room { length values.now ≤ (state self.old).room }
        requires work { length (state self.old).kernel ≤ workspace.old }
        ensures state { state self.new ≡ fed_all values.now (state self.old) }
        ensures work { workspace.new ≡ workspace.old };

    /// The sum at a position: of each mass times the value as many places below the position as the
    /// mass has in the kernel, counted from 1. It is not before the start. It takes no memory.
    fn sum(&self, position: u32) -> Heft
        requires positive { 1 ≤ position }
        requires start { (state self.now).start ≤ position }
        requires known { position ≤ length (state self.now).values }
        ensures { result ≡ plain (state self.now).kernel (state self.now).values position };

    /// The sums at as many positions in a row as `into` has places, from a position on that is not
    /// before the start. It takes no memory.
    fn sums(&self, from: u32, into: &mut [u128])
        requires positive { 1 ≤ from }
        requires start { (state self.now).start ≤ from }
        requires known { from + length into.old ≤ length (state self.now).values + 1 }
        ensures sums { (k : ℕ) → k < length into.old → slice_index into.new k
            ≡ plain (state self.now).kernel (state self.now).values (from + k) }
        ensures hefts { (k : ℕ) → k < length into.old → slice_index into.new k ≤ HEFT_LIMIT };
}
