// Probabilities.
ghost use Rattle.std.specs.Prelude.{ℕ, ◌≡◌, ◌≤◌, ◌↔◌, IfSome, IsSome};
ghost use Rattle.sota_units.specs.Rounding.{ONE};

use std::marker::Model;

/// A probability in units of ten to the minus eighteenth, at most `ONE`.
#[derive(Clone, Copy, Debug, PartialEq, Eq, PartialOrd, Ord)]
pub struct Grain {
    pub(crate) value: u64,
}

impl Model for Grain {
    ghost Value = { ℕ };

    ghost view = { λ a. a.value };

    ghost inverse = { λ n. record { value = n } };

    ghost invariant = { λ a. a.value ≤ ONE };
}

impl Grain {
    /// Probability zero.
    pub const ZERO: Grain = Grain { value: 0 };

    /// Probability one: ten to the eighteenth units.
    pub const ONE: Grain = Grain {
        value: 1_000_000_000_000_000_000,
    };

    /// The probability of this many units. None exactly where they are more than one.
    pub fn new(value: u64) -> Option<Grain>
        ensures some { IsSome result ↔ (value ≤ ONE) }
        ensures value { IfSome result (λ grain. grain ≡ value) }
    {
        if value <= Grain::ONE.value {
            Some(Grain { value })
        } else {
            None
        }
    }

    /// Its number of units.
    pub fn get(self) -> u64
        ensures value { result ≡ self }
        ensures within { self ≤ ONE }
    {
        self.value
    }
}
