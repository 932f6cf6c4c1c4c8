// The files of the system as a desk.
ghost use Rattle.std.specs.Prelude.{◌≡◌, ◌≤◌, None, string_bytes};
ghost use Rattle.sota_edge.specs.Desk.{LoadCause, LoadTaken, StoreCause};
ghost use Rattle.sota.specs.FileAnswer.{FileAnswer, opened_bytes};
ghost use Rattle.sota.specs.FileDesk.{file_state};

use crate::reading::{load_error, read_all};
use crate::shortage::is_shortage;
use crate::writing::write_all;
use sota_edge::{Desk, LoadError, StoreError};
use std::alloc::Global;
use std::fs::File;
use std::io;
use std::io::{Read, Write};
use std::rt::Files;

/// Opens, reads and writes files. It is not known what they hold.
#[derive(Drop)]
pub struct FileDesk<'a, R: Files> {
    rt: &'a R,
    counts: Counts,
}

/// What a desk of files counts.
#[derive(Drop)]
pub struct Counts {
    fault_name: Option<String>,
    load_faults: u64,
    store_faults: u64,
    taken: u64,
}

impl Counts {
    /// What a file gives that was opened, at most `limit` bytes.
    fn load_from<F: Read + Drop>(
        &mut self,
        opened: io::Result<F>,
        alloc: Global,
        name: String,
        limit: u32,
    ) -> Result<Vec<u8>, LoadError>
        ensures answer { FileAnswer (λ bytes. bytes.items) result
            (opened_bytes F.remaining opened) limit }
        ensures cause { LoadCause result (string_bytes name)
            (file_state self.old) (file_state self.new) }
        ensures stores { self.new.store_faults ≡ self.old.store_faults }
        ensures rises { self.old.taken ≤ self.new.taken }
        ensures taken { LoadTaken (λ bytes. bytes.items) result limit
            self.old.taken self.new.taken }
    {
        match read_opened(opened, alloc, limit) {
            Ok(bytes) => {
                self.taken = self.taken.saturating_add(bytes.len() as u64);
                Ok(bytes)
            }
            Err(LoadError::TooLong) => {
                self.taken = self.taken.saturating_add(u64::from(limit) + 1);
                Err(LoadError::TooLong)
            }
            Err(LoadError::Failed) => {
                self.fault_name = Some(name);
                self.load_faults = self.load_faults.saturating_add(1);
                Err(LoadError::Failed)
            }
            Err(LoadError::Missing) => Err(LoadError::Missing),
            Err(LoadError::NoMemory) => Err(LoadError::NoMemory),
        }
    }

    /// Fills a file that was made.
    fn store_to<F: Write + Drop>(
        &mut self,
        made: io::Result<F>,
        name: String,
        bytes: &[u8],
    ) -> Result<(), StoreError>
        ensures cause { StoreCause result (string_bytes name)
            (file_state self.old) (file_state self.new) }
        ensures loads { self.new.load_faults ≡ self.old.load_faults }
        ensures taken { self.new.taken ≡ self.old.taken }
    {
        match write_made(made, bytes) {
            Ok(()) => Ok(()),
            Err(error) if is_shortage(&error) => Err(StoreError::NoMemory),
            Err(_) => {
                self.fault_name = Some(name);
                self.store_faults = self.store_faults.saturating_add(1);
                Err(StoreError::Failed)
            }
        }
    }
}

/// The bytes of a file that was opened, at most `limit`.
fn read_opened<F: Read + Drop>(
    opened: io::Result<F>,
    alloc: Global,
    limit: u32,
) -> Result<Vec<u8>, LoadError>
    ensures { FileAnswer (λ bytes. bytes.items) result (opened_bytes F.remaining opened) limit }
{
    match opened {
        Ok(mut file) => read_all(&mut file, alloc, limit),
        Err(error) => Err(load_error(&error)),
    }
}

/// Writes all the bytes into a file that was made.
fn write_made<F: Write + Drop>(made: io::Result<F>, bytes: &[u8]) -> io::Result<()> {
    write_all(&mut made?, bytes)
}

impl<'a, R: Files> FileDesk<'a, R> {
    /// A desk over the files of this runtime. Nothing is counted yet.
    pub fn new(rt: &'a R) -> Self
        ensures { file_state result.counts ≡ record {
          holds = None;
          fault_name = None;
          load_faults = 0;
          store_faults = 0;
          taken = 0;
        } }
    {
        let counts = Counts {
            fault_name: None,
            load_faults: 0,
            store_faults: 0,
            taken: 0,
        };
        FileDesk { rt, counts }
    }
}

impl<R: Files> Desk for FileDesk<'_, R> {
    ghost state = { λ desk. file_state desk.counts };

    fn load(&mut self, alloc: Global, name: &str, limit: u32) -> Result<Vec<u8>, LoadError> {
        let Ok(copy) = String::from_str(alloc, name) else {
            return Err(LoadError::NoMemory);
        };
        self.counts
            .load_from(File::open(self.rt, name), alloc, copy, limit)
    }

    fn store(&mut self, alloc: Global, name: &str, bytes: &[u8]) -> Result<(), StoreError> {
        let Ok(copy) = String::from_str(alloc, name) else {
            return Err(StoreError::NoMemory);
        };
        self.counts
            .store_to(File::create(self.rt, name), copy, bytes)
    }
}
