// Why histograms are refused.
ghost use Rattle.std.specs.Prelude.{◌≡◌};
ghost use Rattle.sota_histcsv.specs.Words.{fault_word, fault_place};

use sota_units::NoMemory;

/// The first fault of a histogram file, or of the arcs that have no histogram. Records are counted
/// from 0, the header; arcs from 1.
#[derive(Clone, Copy, Debug, PartialEq, Eq)]
pub enum HistFileFault {
    /// There is no header, or its fields are not `arc`, `tick` and `mass/Q` with a scale `Q` from 1
    /// to 1,000,000,000.
    Header,
    /// The record has not three fields.
    Fields(u32),
    /// A field of the record is no number.
    Number(u32),
    /// The record names no arc of the graph.
    NoArc(u32),
    /// The record gives mass to the tick 0.
    ZeroTick(u32),
    /// An earlier record gives mass to the same tick of the same arc.
    RepeatedTick(u32),
    /// The masses of the arc sum to more than the scale.
    Sum(u32),
    /// The arc has no histogram and its weight is 0: each road takes time.
    ZeroTime(u32),
    /// Memory was wanted, and there was none.
    NoMemory,
}

impl HistFileFault {
    /// Its name, as replies print it.
    pub fn word(self) -> &'static [u8]
        ensures { result.now ≡ fault_word self }
    {
        match self {
            HistFileFault::Header => b"Header",
            HistFileFault::Fields(_) => b"Fields",
            HistFileFault::Number(_) => b"Number",
            HistFileFault::NoArc(_) => b"NoArc",
            HistFileFault::ZeroTick(_) => b"ZeroTick",
            HistFileFault::RepeatedTick(_) => b"RepeatedTick",
            HistFileFault::Sum(_) => b"Sum",
            HistFileFault::ZeroTime(_) => b"ZeroTime",
            HistFileFault::NoMemory => b"NoMemory",
        }
    }

    /// The record or arc that it names, 0 where it names none.
    pub fn place(self) -> u32
        ensures { result ≡ fault_place self }
    {
        match self {
            HistFileFault::Fields(number)
            | HistFileFault::Number(number)
            | HistFileFault::NoArc(number)
            | HistFileFault::ZeroTick(number)
            | HistFileFault::RepeatedTick(number)
            | HistFileFault::Sum(number)
            | HistFileFault::ZeroTime(number) => number,
            HistFileFault::Header | HistFileFault::NoMemory => 0,
        }
    }
}

impl From<NoMemory> for HistFileFault {
    ghost use Rattle.std.specs.Prelude.{◌≡◌};
    ghost use Rattle.sota_histcsv.specs.declared.fault.HistFileFault.TheVariants as faults;

    ghost from_gives = { λ _ fault. fault ≡ faults.NoMemory };

    fn from(_: NoMemory) -> Self {
        HistFileFault::NoMemory
    }
}
