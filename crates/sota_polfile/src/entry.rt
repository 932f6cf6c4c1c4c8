// The entries of a policy's row.
ghost use Rattle.std.specs.Prelude.{◌≡◌};
ghost use Rattle.sota_polfile.specs.Entry.{IsEntry};

use crate::entry_list::{Entries, Entry};

/// What to do at a node with a remaining budget.
#[derive(Clone, Copy, Debug, PartialEq, Eq)]
pub struct PolicyEntry {
    /// The arc to take, 0 for none.
    pub arc: u32,
    /// The on-time probability that this attains, in units of ten to the minus eighteenth.
    pub value: u64,
}

/// The entries of a policy's row.
pub type PolicyEntries = Entries<PolicyEntry>;

impl Entry for PolicyEntry {
    ghost is_entry = { IsEntry };
}

impl Entries<PolicyEntry> {
    /// These entries. It takes no memory.
    pub fn new(list: Vec<PolicyEntry>) -> PolicyEntries
        ensures { result ≡ list.items }
    {
        // A check knows a number's range once it is read.
        prove!(
            list.iter()
                .all(|entry| entry.arc <= u32::MAX && entry.value <= u64::MAX)
        );
        Entries { list }
    }
}
