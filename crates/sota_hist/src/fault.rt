// Why pairs give no histogram.
ghost use Rattle.std.specs.Prelude.{◌≡◌};
ghost use Rattle.sota_hist.specs.Words.{fault_word};

use sota_units::{NoMemory, Tick};

/// Why pairs of a tick and a mass give no histogram.
#[derive(Clone, Copy, Debug, PartialEq, Eq)]
pub enum HistFault {
    /// The place, counted from 0, of the first pair of positive mass at tick 0.
    ZeroTick(u32),
    /// The least tick that stands twice among the pairs of positive mass.
    RepeatedTick(Tick),
    /// The total of the masses, where it does not fit the scale.
    Sum(u64),
    /// Memory was wanted, and there was none.
    NoMemory,
}

impl HistFault {
    /// Its name, as replies print it.
    pub fn word(&self) -> &'static [u8]
        ensures { result.now ≡ fault_word self.now }
    {
        match self {
            HistFault::ZeroTick(_) => b"ZeroTick",
            HistFault::RepeatedTick(_) => b"RepeatedTick",
            HistFault::Sum(_) => b"Sum",
            HistFault::NoMemory => b"NoMemory",
        }
    }
}

impl From<NoMemory> for HistFault {
    ghost use Rattle.sota_hist.specs.declared.fault.HistFault.TheVariants.{NoMemory};

    ghost from_gives = { λ _ fault. fault ≡ NoMemory };

    fn from(_: NoMemory) -> Self {
        HistFault::NoMemory
    }
}
