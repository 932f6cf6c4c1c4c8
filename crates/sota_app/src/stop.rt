// Why a call stops before all its outputs are made.
ghost use Rattle.std.specs.Prelude.{◌≡◌};

use sota_edge::{SinkError, StoreError};
use sota_units::NoMemory;

/// Why a call stops.
#[derive(Clone, Copy, Debug, PartialEq, Eq)]
pub enum Stop {
    /// A line could not be written.
    PutFailed,
    /// A file could not be stored.
    StoreFailed,
    /// Memory was wanted.
    NoMemory,
}

impl From<SinkError> for Stop {
    ghost use Rattle.sota_app.specs.Outputs.{stop_of_put};

    ghost from_gives = { λ error stop. stop ≡ stop_of_put error };

    fn from(error: SinkError) -> Self {
        match error {
            SinkError::Failed => Stop::PutFailed,
            SinkError::NoMemory => Stop::NoMemory,
        }
    }
}

impl From<StoreError> for Stop {
    ghost use Rattle.sota_app.specs.Outputs.{stop_of_store};

    ghost from_gives = { λ error stop. stop ≡ stop_of_store error };

    fn from(error: StoreError) -> Self {
        match error {
            StoreError::Failed => Stop::StoreFailed,
            StoreError::NoMemory => Stop::NoMemory,
        }
    }
}

impl From<NoMemory> for Stop {
    ghost use Rattle.sota_app.specs.declared.stop.Stop.TheVariants as stops;

    ghost from_gives = { λ _ stop. stop ≡ stops.NoMemory };

    fn from(_: NoMemory) -> Self {
        Stop::NoMemory
    }
}
