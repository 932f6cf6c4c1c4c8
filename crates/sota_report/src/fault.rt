// Why a text is no list of names, and why a line of a script is not resolved.
ghost use Rattle.std.specs.Prelude.{◌≡◌};
ghost use Rattle.sota_report.specs.Words.{fault_word, fault_place, unresolved_word};

use sota_units::NoMemory;

/// The first fault of a text that is no list of names, with the number of its line, counted from 1.
#[derive(Clone, Copy, Debug, PartialEq, Eq)]
pub enum NamesFault {
    /// The line has other than two fields.
    Fields(u32),
    /// The first field is no number.
    Number(u32),
    /// The number is none of a node.
    NodeRange(u32),
    /// The name is not UTF-8.
    NotText(u32),
    /// The name stood before.
    RepeatedName(u32),
    /// Memory was wanted, and there was none. It says nothing of the text.
    NoMemory,
}

impl NamesFault {
    /// Its name, as replies print it.
    pub fn word(self) -> &'static [u8]
        ensures { result.now ≡ fault_word self }
    {
        match self {
            NamesFault::Fields(_) => b"Fields",
            NamesFault::Number(_) => b"Number",
            NamesFault::NodeRange(_) => b"NodeRange",
            NamesFault::NotText(_) => b"NotText",
            NamesFault::RepeatedName(_) => b"RepeatedName",
            NamesFault::NoMemory => b"NoMemory",
        }
    }

    /// The line that it carries, 0 where there is none.
    pub fn place(self) -> u32
        ensures { result ≡ fault_place self }
    {
        match self {
            NamesFault::Fields(line)
            | NamesFault::Number(line)
            | NamesFault::NodeRange(line)
            | NamesFault::NotText(line)
            | NamesFault::RepeatedName(line) => line,
            NamesFault::NoMemory => 0,
        }
    }
}

impl From<NoMemory> for NamesFault {
    ghost use Rattle.sota_report.specs.declared.fault.NamesFault.TheVariants.{NoMemory};

    ghost from_gives = { λ _ fault. fault ≡ NoMemory };

    fn from(_: NoMemory) -> Self {
        NamesFault::NoMemory
    }
}

/// Why a line of a script is not resolved.
#[derive(Clone, Copy, Debug, PartialEq, Eq)]
pub enum ResolveFault {
    /// A name is none of the list.
    Place,
    /// Memory was wanted, and there was none. It says nothing of the line.
    NoMemory,
}

impl ResolveFault {
    /// Its name, as replies print it.
    pub fn word(self) -> &'static [u8]
        ensures { result.now ≡ unresolved_word self }
    {
        match self {
            ResolveFault::Place => b"Place",
            ResolveFault::NoMemory => b"NoMemory",
        }
    }
}

impl From<NoMemory> for ResolveFault {
    ghost use Rattle.sota_report.specs.declared.fault.ResolveFault.TheVariants.{NoMemory};

    ghost from_gives = { λ _ fault. fault ≡ NoMemory };

    fn from(_: NoMemory) -> Self {
        ResolveFault::NoMemory
    }
}
