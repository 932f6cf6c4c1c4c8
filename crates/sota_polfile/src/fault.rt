// Why bytes are no policy file.
ghost use Rattle.std.specs.Prelude.{◌≡◌};
ghost use Rattle.sota_polfile.specs.declared.fault.PolicyFault.TheVariants.{NoMemory};
ghost use Rattle.sota_polfile.specs.Words.{fault_word, fault_place};

use std::alloc::{AllocError, AllocFailed};

/// Why bytes are no policy file, or parts are no policy table: the first fault, from the front on.
#[derive(Clone, Copy, Debug, PartialEq, Eq)]
pub enum PolicyFault {
    /// The first eight bytes are not all there or are not the magic.
    Magic,
    /// The bytes end inside the head, a row head or an entry: the offset where that begins.
    Truncated(u64),
    /// The node of this row, counted from 1, is not greater than the one before.
    Order(u32),
    /// A number of this row, counted from 1, is out of its range; 0 stands for the head.
    Range(u32),
    /// Bytes follow the last row, from this offset on.
    Trailing(u64),
    /// Memory was wanted, and there was none.
    NoMemory,
}

impl PolicyFault {
    /// Its name, as replies print it.
    pub fn word(self) -> &'static [u8]
        ensures { result.now ≡ fault_word self }
    {
        match self {
            PolicyFault::Magic => b"Magic",
            PolicyFault::Truncated(_) => b"Truncated",
            PolicyFault::Order(_) => b"Order",
            PolicyFault::Range(_) => b"Range",
            PolicyFault::Trailing(_) => b"Trailing",
            PolicyFault::NoMemory => b"NoMemory",
        }
    }

    /// The number that it carries, 0 where there is none.
    pub fn place(self) -> u64
        ensures { result ≡ fault_place self }
    {
        match self {
            PolicyFault::Truncated(offset) | PolicyFault::Trailing(offset) => offset,
            PolicyFault::Order(row) | PolicyFault::Range(row) => u64::from(row),
            PolicyFault::Magic | PolicyFault::NoMemory => 0,
        }
    }
}

impl From<AllocError> for PolicyFault {
    ghost from_gives = { λ _ fault. fault ≡ NoMemory };

    fn from(_: AllocError) -> PolicyFault {
        PolicyFault::NoMemory
    }
}

impl<T: Drop> From<AllocFailed<T>> for PolicyFault {
    ghost from_gives = { λ _ fault. fault ≡ NoMemory };

    fn from(_: AllocFailed<T>) -> PolicyFault {
        PolicyFault::NoMemory
    }
}
