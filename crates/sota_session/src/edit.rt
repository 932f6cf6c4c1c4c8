// Why edits are refused.
ghost use Rattle.std.specs.Prelude.{◌≡◌};
ghost use Rattle.sota_session.specs.Words.{edit_word};

use sota_units::NoMemory;

/// Why an edit is refused.
#[derive(Clone, Copy, Debug, PartialEq, Eq)]
pub enum EditFault {
    /// No arc has the number.
    NoArc,
    /// Memory was wanted, and there was none. It is no fault of the edit.
    NoMemory,
}

impl EditFault {
    /// Its name, as replies print it.
    pub fn word(self) -> &'static [u8]
        ensures { result.now ≡ edit_word self }
    {
        match self {
            EditFault::NoArc => b"NoArc",
            EditFault::NoMemory => b"NoMemory",
        }
    }
}

impl From<NoMemory> for EditFault {
    ghost use Rattle.sota_session.specs.declared.edit.EditFault.TheVariants as edits;

    ghost from_gives = { λ _ fault. fault ≡ edits.NoMemory };

    fn from(_: NoMemory) -> Self {
        EditFault::NoMemory
    }
}
