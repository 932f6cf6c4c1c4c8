// A desk in memory that never fails.
ghost use Rattle.std.specs.Prelude.{◌≡◌, OnOk, OnErr, None, Some, option_map};
ghost use Rattle.sota_edge.specs.Desk.{stored};
ghost use Rattle.sota_edge.specs.SureDesk.{SureDeskState, sure_desk_state};
ghost use Rattle.sota_edge.specs.SureDesk.{sure_files, files_of, texts};

use crate::{Desk, LoadError, StoreError};
use sota_units::NoMemory;
use std::alloc::Global;
use std::collections::BTreeMap;
use std::marker::Model;

/// Named files in memory. What it holds is known, and it never answers Failed.
#[derive(Drop)]
pub struct SureDesk {
    alloc: Global,
    named: BTreeMap<String, Vec<u8>>,
    taken: u64,
}

impl Model for SureDesk {
    ghost Value = { SureDeskState };

    ghost view = { λ desk. record { named = texts desk.named; taken = desk.taken } };
}

impl SureDesk {
    /// Holds nothing.
    pub fn new(alloc: Global) -> Self
        ensures { sure_desk_state result ≡ record {
          holds = Some (λ _. None);
          fault_name = None;
          load_faults = 0;
          store_faults = 0;
          taken = 0;
        } }
    {
        SureDesk {
            alloc,
            named: BTreeMap::new(alloc),
            taken: 0,
        }
    }

    /// Sets one name. After NoMemory all is as before.
    pub fn insert(&mut self, name: &str, bytes: Vec<u8>) -> Result<(), NoMemory>
        ensures ok { OnOk result (sure_desk_state self.new ≡ record (sure_desk_state self.old) {
          holds = Some (stored name.now bytes.items (sure_files self.old));
        }) }
        ensures err { OnErr result (sure_desk_state self.new ≡ sure_desk_state self.old) }
    {
        set(self.alloc, &mut self.named, name, bytes)
    }

    /// The bytes of a name. None exactly where it is not held.
    pub fn held(&self, name: &str) -> Option<&[u8]>
        ensures { option_map (λ bytes. bytes.now) result ≡ sure_files self.now name.now }
    {
        find(&self.named, name)
    }
}

/// The bytes of a name, where it has any.
fn find<'a>(named: &'a BTreeMap<String, Vec<u8>>, name: &str) -> Option<&'a [u8]>
    ensures { option_map (λ bytes. bytes.now) result ≡ files_of (texts named.now) name.now }
{
    match named.get(name) {
        Some(bytes) => Some(bytes.as_slice()),
        None => None,
    }
}

/// Makes a name hold these bytes.
fn set(
    alloc: Global,
    named: &mut BTreeMap<String, Vec<u8>>,
    name: &str,
    bytes: Vec<u8>,
) -> Result<(), NoMemory>
    ensures ok { OnOk result
        (files_of (texts named.new) ≡ stored name.now bytes.items (files_of (texts named.old))) }
    ensures err { OnErr result (files_of (texts named.new) ≡ files_of (texts named.old)) }
{
    let key = String::from_str(alloc, name)?;
    named.insert(key, bytes)?;
    Ok(())
}

impl Desk for SureDesk {
    ghost state = { sure_desk_state };

    fn load(&mut self, alloc: Global, name: &str, limit: u32) -> Result<Vec<u8>, LoadError> {
        let Some(bytes) = find(&self.named, name) else {
            return Err(LoadError::Missing);
        };
        if bytes.len() > limit as usize {
            self.taken = self.taken.saturating_add(u64::from(limit) + 1);
            return Err(LoadError::TooLong);
        }
        let Ok(copy) = Vec::from_slice(alloc, bytes) else {
            return Err(LoadError::NoMemory);
        };
        self.taken = self.taken.saturating_add(copy.len() as u64);
        Ok(copy)
    }

    fn store(&mut self, alloc: Global, name: &str, bytes: &[u8]) -> Result<(), StoreError> {
        let Ok(copy) = Vec::from_slice(alloc, bytes) else {
            return Err(StoreError::NoMemory);
        };
        if let Err(NoMemory) = set(alloc, &mut self.named, name, copy) {
            return Err(StoreError::NoMemory);
        }
        Ok(())
    }
}
