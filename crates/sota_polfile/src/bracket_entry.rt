// The entries of a bracket table's row.
ghost use Rattle.std.specs.Prelude.{◌≡◌};
ghost use Rattle.sota_polfile.specs.Entry.{IsBracketEntry};

use crate::entry_list::{Entries, Entry};

/// What to do at a node with a remaining budget, and two bounds of the on-time probability there,
/// in units of ten to the minus eighteenth.
#[derive(Clone, Copy, Debug, PartialEq, Eq)]
pub struct BracketEntry {
    /// The arc to take, 0 for none.
    pub arc: u32,
    /// What the arc attains.
    pub lower: u64,
    /// What nothing exceeds. More than one whole counts as one whole.
    pub upper: u64,
}

/// The entries of a bracket table's row.
pub type BracketEntries = Entries<BracketEntry>;

impl Entry for BracketEntry {
    ghost is_entry = { IsBracketEntry };
}

impl Entries<BracketEntry> {
    /// These entries. It takes no memory.
    pub fn new(list: Vec<BracketEntry>) -> BracketEntries
        ensures { result ≡ list.items }
    {
        // A check knows a number's range once it is read.
        prove!(
            list.iter().all(|entry| entry.arc <= u32::MAX
                && entry.lower <= u64::MAX
                && entry.upper <= u64::MAX)
        );
        Entries { list }
    }
}
