// Why planning with departure periods is refused.
ghost use Rattle.std.specs.Prelude.{◌≡◌};
ghost use Rattle.sota_period.specs.Answers.{timed_word, timed_count};

use sota_units::NoMemory;

/// Why an ask with departure periods is refused, in the order in which it is tried.
#[derive(Clone, Copy, Debug, PartialEq, Eq)]
pub enum TimedFault {
    /// The origin is no node.
    NoOrigin,
    /// The destination is no node.
    NoDest,
    /// The budget exceeds 65,535 ticks.
    Budget,
    /// The number of timed cells, where it exceeds 60,000,000.
    TimedCells(u64),
    /// The number of timed broad cells, where it exceeds 40,000,000.
    TimedBroad(u64),
    /// Memory was wanted, and there was none. It is no fault of the ask.
    NoMemory,
}

impl TimedFault {
    /// Its name, as replies print it.
    pub fn word(self) -> &'static [u8]
        ensures { result.now ≡ timed_word self }
    {
        match self {
            TimedFault::NoOrigin => b"NoOrigin",
            TimedFault::NoDest => b"NoDest",
            TimedFault::Budget => b"Budget",
            TimedFault::TimedCells(_) => b"TimedCells",
            TimedFault::TimedBroad(_) => b"TimedBroad",
            TimedFault::NoMemory => b"NoMemory",
        }
    }

    /// The count of cells. None exactly where the fault has none.
    pub fn count(self) -> Option<u64>
        ensures { result ≡ timed_count self }
    {
        match self {
            TimedFault::TimedCells(count) | TimedFault::TimedBroad(count) => Some(count),
            _ => None,
        }
    }
}

impl From<NoMemory> for TimedFault {
    ghost use Rattle.sota_period.specs.declared.fault.TimedFault.TheVariants.{NoMemory};

    ghost from_gives = { λ _ fault. fault ≡ NoMemory };

    fn from(_: NoMemory) -> Self {
        TimedFault::NoMemory
    }
}
