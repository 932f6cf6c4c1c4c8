// Why a region is not made, and why an ask is refused.
ghost use Rattle.std.specs.Prelude.{◌≡◌};
ghost use Rattle.sota_bounds.specs.AskFaults.{ask_word, ask_count};

use crate::range::RangeFault;
use sota_units::NoMemory;

/// Why a region is not made: it is too large to plan for, or memory was wanted.
#[derive(Clone, Copy, Debug, PartialEq, Eq)]
pub enum RegionFault {
    /// The number of table cells, where it exceeds 60,000,000.
    TableCells(u64),
    /// The number of broad cells, where it exceeds 40,000,000 and the table cells are within their
    /// limit.
    BroadCells(u64),
    /// Memory was wanted, and there was none.
    NoMemory,
}

impl From<NoMemory> for RegionFault {
    ghost use Rattle.sota_bounds.specs.declared.fault.RegionFault.TheVariants.{NoMemory};

    ghost from_gives = { λ _ fault. fault ≡ NoMemory };

    fn from(_: NoMemory) -> Self {
        RegionFault::NoMemory
    }
}

/// Why an ask is refused, in the order in which it is tried.
#[derive(Clone, Copy, Debug, PartialEq, Eq)]
pub enum AskFault {
    /// The origin is no node.
    NoOrigin,
    /// The destination is no node.
    NoDest,
    /// The budget exceeds 65,535 ticks.
    Budget,
    /// So many pairs of a node and a budget can matter to it, more than 60,000,000.
    TableCells(u64),
    /// So many broad cells are in its region, more than 40,000,000.
    BroadCells(u64),
    /// Memory was wanted, and there was none. It is no fault of the ask.
    NoMemory,
}

impl AskFault {
    /// Its name, as replies print it.
    pub fn word(self) -> &'static [u8]
        ensures { result.now ≡ ask_word self }
    {
        match self {
            AskFault::NoOrigin => b"NoOrigin",
            AskFault::NoDest => b"NoDest",
            AskFault::Budget => b"Budget",
            AskFault::TableCells(_) => b"TableCells",
            AskFault::BroadCells(_) => b"BroadCells",
            AskFault::NoMemory => b"NoMemory",
        }
    }

    /// The count that exceeds a limit of size. None exactly where the fault has none.
    pub fn count(self) -> Option<u64>
        ensures { result ≡ ask_count self }
    {
        match self {
            AskFault::TableCells(count) | AskFault::BroadCells(count) => Some(count),
            _ => None,
        }
    }
}

impl From<NoMemory> for AskFault {
    ghost use Rattle.sota_bounds.specs.declared.fault.AskFault.TheVariants as asks;

    ghost from_gives = { λ _ fault. fault ≡ asks.NoMemory };

    fn from(_: NoMemory) -> Self {
        AskFault::NoMemory
    }
}

impl From<RangeFault> for AskFault {
    ghost use Rattle.sota_bounds.specs.AskFaults.{range_cause};

    ghost from_gives = { λ range fault. fault ≡ range_cause range };

    fn from(fault: RangeFault) -> Self {
        match fault {
            RangeFault::NoOrigin => AskFault::NoOrigin,
            RangeFault::NoDest => AskFault::NoDest,
            RangeFault::Budget => AskFault::Budget,
        }
    }
}

impl From<RegionFault> for AskFault {
    ghost use Rattle.sota_bounds.specs.AskFaults.{size_cause};

    ghost from_gives = { λ region fault. fault ≡ size_cause region };

    fn from(fault: RegionFault) -> Self {
        match fault {
            RegionFault::TableCells(count) => AskFault::TableCells(count),
            RegionFault::BroadCells(count) => AskFault::BroadCells(count),
            RegionFault::NoMemory => AskFault::NoMemory,
        }
    }
}
