// Why a line is no command.
ghost use Rattle.std.specs.Prelude.{◌≡◌};
ghost use Rattle.sota_script.specs.Words.{fault_word};

use sota_units::NoMemory;

/// The first fault of a line that is no command.
#[derive(Clone, Copy, Debug, PartialEq, Eq)]
pub enum LineFault {
    /// The first field is no word of a command.
    Word,
    /// The number of fields is not one of the command.
    Count,
    /// A field that is to be a number, or a pair of two, is not.
    Number,
    /// A name is not UTF-8.
    Name,
    /// Memory was wanted, and there was none. It has no cause in the line.
    NoMemory,
}

impl LineFault {
    /// Its name, as replies print it.
    pub fn word(self) -> &'static [u8]
        ensures { result.now ≡ fault_word self }
    {
        match self {
            LineFault::Word => b"Word",
            LineFault::Count => b"Count",
            LineFault::Number => b"Number",
            LineFault::Name => b"Name",
            LineFault::NoMemory => b"NoMemory",
        }
    }
}

impl From<NoMemory> for LineFault {
    ghost use Rattle.sota_script.specs.declared.fault.LineFault.TheVariants.{NoMemory};

    ghost from_gives = { λ _ fault. fault ≡ NoMemory };

    fn from(_: NoMemory) -> Self {
        LineFault::NoMemory
    }
}
