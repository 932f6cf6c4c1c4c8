// A desk of named files.
ghost use Rattle.std.specs.Prelude.{◌≡◌, ◌≤◌};
ghost use Rattle.sota_edge.specs.Desk.{DeskState, LoadCause, LoadAnswer, LoadTaken};
ghost use Rattle.sota_edge.specs.Desk.{StoreCause, StoreAnswer};

use std::alloc::Global;

/// Why a load gave no bytes.
#[derive(Clone, Copy, Debug, PartialEq, Eq)]
pub enum LoadError {
    /// The desk does not hold the name. A desk that cannot know answers Failed.
    Missing,
    /// The outside failed. The desk's count of failed loads rose, and it keeps the name.
    Failed,
    /// The name holds more bytes than the limit.
    TooLong,
    /// No memory for the bytes, or for the name.
    NoMemory,
}

/// Why a store was not made.
#[derive(Clone, Copy, Debug, PartialEq, Eq)]
pub enum StoreError {
    /// The outside failed. The desk's count of failed stores rose, and it keeps the name.
    Failed,
    /// No memory for the bytes, or for the name.
    NoMemory,
}

/// Named files that are loaded and stored whole.
pub trait Desk {
    /// What the desk holds, where that is known, and what it has counted.
    ghost state: { Self → DeskState };

    /// The bytes of a name, at most `limit`. It leaves what the desk holds.
    fn load(&mut self, alloc: Global, name: &str, limit: u32) -> Result<Vec<u8>, LoadError>
        ensures answer { LoadAnswer (λ bytes. bytes.items) result name.now limit (state self.old) }
        ensures cause { LoadCause result name.now (state self.old) (state self.new) }
        ensures holds { (state self.new).holds ≡ (state self.old).holds }
        ensures stores { (state self.new).store_faults ≡ (state self.old).store_faults }
        ensures rises { (state self.old).taken ≤ (state self.new).taken }
        ensures taken { LoadTaken (λ bytes. bytes.items) result limit
            (state self.old).taken (state self.new).taken };

    /// Makes the name hold the bytes and no others. After an error what the name holds is unknown;
    /// the other names stay.
    fn store(&mut self, alloc: Global, name: &str, bytes: &[u8]) -> Result<(), StoreError>
        ensures answer { StoreAnswer result name.now bytes.now (state self.old) (state self.new) }
        ensures cause { StoreCause result name.now (state self.old) (state self.new) }
        ensures loads { (state self.new).load_faults ≡ (state self.old).load_faults }
        ensures taken { (state self.new).taken ≡ (state self.old).taken };
}
