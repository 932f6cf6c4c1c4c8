// Each sum when it is asked for.
ghost use Rattle.std.specs.Prelude.{◌≡◌, ℕ, ◌+◌, ◌<◌, ◌≤◌, [], length, slice_index, false, IfOk};
ghost use Rattle.sota_units.specs.Rounding.{HEFT_LIMIT};
ghost use Rattle.sota_hist.specs.Time.{is_closed};
ghost use Rattle.sota_online.specs.Summer.{plain, fed_more, fed_all};

use crate::kernel::kernel_masses;
use crate::sums::{plain_sum, plain_sums};
use crate::values::put;
use crate::{Summer, Workspace};
use sota_hist::Histogram;
use sota_units::{Grain, Heft, NoMemory, Steps};
use std::alloc::Global;
use std::marker::Model;
use std::sync::ledger::Ledger;

/// A summer that computes each sum when it is asked for. Its values take no work, and a sum takes
/// one product for each place of the kernel, which no counter counts.
#[derive(Drop)]
pub struct PlainSummer {
    kernel: Vec<u32>,
    values: Vec<u64>,
    fed: usize,
    start: u32,
}

impl Model for PlainSummer {
    ghost use Rattle.std.specs.Prelude.{◌-◌, ◌≤◌, length, take, sum};
    ghost use Rattle.sota_units.specs.Rounding.{SCALE_LIMIT};
    ghost use Rattle.sota_online.specs.Summer.{SummerState};

    ghost Value = { SummerState };

    ghost view = { λ s. record {
      kernel = s.kernel.items;
      values = take s.fed s.values.items;
      room = length s.values.items - s.fed;
      start = s.start;
    } };

    ghost invariant = { λ s. (s.fed ≤ length s.values.items) × (length s.values.items ≤ 65536)
        × (length s.kernel.items ≤ 65536)
        × (sum s.kernel.items ≤ SCALE_LIMIT) };
}

impl Summer for PlainSummer {
    ghost state = { λ s. s };

    fn make(alloc: Global, time: &Histogram, length: u32, start: u32) -> Result<Self, NoMemory> {
        let kernel = kernel_masses(alloc, time, length)?;
        let values = vec![in alloc; 0; length as usize]?;
        Ok(PlainSummer {
            kernel,
            values,
            fed: 0,
            start,
        })
    }

    fn fed(&self) -> u32 {
        self.fed as u32
    }

    fn room(&self) -> u32 {
        (self.values.len() - self.fed) as u32
    }

    fn span(&self) -> u32 {
        self.kernel.len() as u32
    }

    fn feed<M: Ledger>(&mut self, value: Grain, _workspace: &mut Workspace, products: &mut Steps<M>)
        requires room { 1 ≤ self.old.room }
        ensures state { self.new ≡ fed_more value self.old }
        ensures work { _workspace.new ≡ _workspace.old }
        ensures count { products.new ≡ products.old }
    {
        self.values[self.fed] = value.get();
        self.fed += 1;
    }

    fn feed_all<M: Ledger>(
        &mut self,
        values: &[Grain],
        _workspace: &mut Workspace,
        products: &mut Steps<M>,
    )
        requires room { length values.now ≤ self.old.room }
        ensures state { self.new ≡ fed_all values.now self.old }
        ensures work { _workspace.new ≡ _workspace.old }
        ensures count { products.new ≡ products.old }
    {
        put(values, &mut self.values, self.fed);
        self.fed += values.len();
    }

    fn sum(&self, position: u32) -> Heft {
        plain_sum(&self.kernel, &self.values[..self.fed], position as usize)
    }

    fn sums(&self, from: u32, into: &mut [u128]) {
        plain_sums(&self.kernel, &self.values[..self.fed], from as usize, into);
    }
}
