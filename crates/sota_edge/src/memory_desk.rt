// A desk in memory whose calls fail as planned.
ghost use Rattle.std.specs.Prelude.{◌≡◌, ◌≤◌, ◌⊎◌, OnOk, OnErr, IsErrOf, IsTrue, None, Some};
ghost use Rattle.std.specs.Prelude.{option_map, string_bytes};
ghost use Rattle.sota_edge.specs.Counts.{counted};
ghost use Rattle.sota_edge.specs.Desk.{LoadCause, LoadAnswer, LoadTaken};
ghost use Rattle.sota_edge.specs.Desk.{StoreCause, StoreAnswer, stored};
ghost use Rattle.sota_edge.specs.MemoryDesk.{MemoryDeskState, memory_desk_state};
ghost use Rattle.sota_edge.specs.MemoryDesk.{memory_files, is_listed};

use crate::listed::count_call;
use crate::{Desk, LoadError, StoreError, SureDesk};
use sota_units::NoMemory;
use std::alloc::Global;
use std::marker::Model;

/// Named files in memory, with a list of the calls that fail. What it holds is known.
#[derive(Drop)]
pub struct MemoryDesk {
    sure: SureDesk,
    fails: Vec<u32>,
    calls: u64,
    fault_name: Option<String>,
    load_faults: u64,
    store_faults: u64,
}

impl Model for MemoryDesk {
    ghost Value = { MemoryDeskState };

    ghost view = { λ desk. record {
      sure = desk.sure;
      fails = desk.fails.items;
      calls = desk.calls;
      fault_name = option_map (λ name. string_bytes name) desk.fault_name;
      load_faults = desk.load_faults;
      store_faults = desk.store_faults;
    } };
}

impl MemoryDesk {
    /// Holds nothing. `fails` lists the numbers of the calls that fail, loads and stores counted
    /// together from 1.
    pub fn new(alloc: Global, fails: Vec<u32>) -> Self
        ensures state { memory_desk_state result ≡ record {
          holds = Some (λ _. None);
          fault_name = None;
          load_faults = 0;
          store_faults = 0;
          taken = 0;
        } }
        ensures calls { result.calls ≡ 0 }
        ensures fails { result.fails ≡ fails.items }
    {
        MemoryDesk {
            sure: SureDesk::new(alloc),
            fails,
            calls: 0,
            fault_name: None,
            load_faults: 0,
            store_faults: 0,
        }
    }

    /// Sets one name. After NoMemory all is as before.
    pub fn insert(&mut self, name: &str, bytes: Vec<u8>) -> Result<(), NoMemory>
        ensures ok { OnOk result (memory_desk_state self.new ≡ record (memory_desk_state self.old) {
          holds = Some (stored name.now bytes.items (memory_files self.old));
        }) }
        ensures err { OnErr result (memory_desk_state self.new ≡ memory_desk_state self.old) }
        ensures calls { self.new.calls ≡ self.old.calls }
        ensures fails { self.new.fails ≡ self.old.fails }
    {
        self.sure.insert(name, bytes)
    }

    /// The bytes of a name. None exactly where it is not held.
    pub fn held(&self, name: &str) -> Option<&[u8]>
        ensures { option_map (λ bytes. bytes.now) result ≡ memory_files self.now name.now }
    {
        self.sure.held(name)
    }
}

impl Desk for MemoryDesk {
    ghost state = { memory_desk_state };

    fn load(&mut self, alloc: Global, name: &str, limit: u32) -> Result<Vec<u8>, LoadError>
        ensures answer { LoadAnswer (λ bytes. bytes.items) result name.now limit
            (memory_desk_state self.old) }
        ensures cause { LoadCause result name.now
            (memory_desk_state self.old) (memory_desk_state self.new) }
        ensures holds { (memory_desk_state self.new).holds ≡ (memory_desk_state self.old).holds }
        ensures stores { self.new.store_faults ≡ self.old.store_faults }
        ensures rises { self.old.sure.taken ≤ self.new.sure.taken }
        ensures taken { LoadTaken (λ bytes. bytes.items) result limit
            self.old.sure.taken self.new.sure.taken }

        // Only the calls that are listed fail, and each of them does, unless there is no memory.
        ensures only_listed { IsErrOf result LoadError.Failed →
            IsTrue (is_listed self.old.fails self.new.calls) }
        ensures listed { IsTrue (is_listed self.old.fails self.new.calls) →
            IsErrOf result LoadError.Failed ⊎ IsErrOf result LoadError.NoMemory }
        ensures calls { self.new.calls ≡ counted self.old.calls }
        ensures fails { self.new.fails ≡ self.old.fails }
    {
        if !count_call(&mut self.calls, &self.fails) {
            return self.sure.load(alloc, name, limit);
        }
        let Ok(failed) = String::from_str(alloc, name) else {
            return Err(LoadError::NoMemory);
        };
        self.fault_name = Some(failed);
        self.load_faults = self.load_faults.saturating_add(1);
        Err(LoadError::Failed)
    }

    fn store(&mut self, alloc: Global, name: &str, bytes: &[u8]) -> Result<(), StoreError>
        ensures answer { StoreAnswer result name.now bytes.now
            (memory_desk_state self.old) (memory_desk_state self.new) }
        ensures cause { StoreCause result name.now
            (memory_desk_state self.old) (memory_desk_state self.new) }
        ensures loads { self.new.load_faults ≡ self.old.load_faults }
        ensures taken { self.new.sure.taken ≡ self.old.sure.taken }

        // Only the calls that are listed fail, and each of them does, unless there is no memory.
        ensures only_listed { IsErrOf result StoreError.Failed →
            IsTrue (is_listed self.old.fails self.new.calls) }
        ensures listed { IsTrue (is_listed self.old.fails self.new.calls) →
            IsErrOf result StoreError.Failed ⊎ IsErrOf result StoreError.NoMemory }
        ensures calls { self.new.calls ≡ counted self.old.calls }
        ensures fails { self.new.fails ≡ self.old.fails }
    {
        if !count_call(&mut self.calls, &self.fails) {
            return self.sure.store(alloc, name, bytes);
        }
        let Ok(failed) = String::from_str(alloc, name) else {
            return Err(StoreError::NoMemory);
        };
        self.fault_name = Some(failed);
        self.store_faults = self.store_faults.saturating_add(1);
        Err(StoreError::Failed)
    }
}
