// Sums of masses times probabilities, and the only two roundings.
ghost use Rattle.std.specs.Prelude.{ℕ, ◌≡◌, ◌+◌, ◌*◌, ◌≤◌, ◌↔◌, IfSome, IsSome};
ghost use Rattle.sota_units.specs.Rounding.{ONE, HEFT_LIMIT, floor_by, ceiling_by};

use crate::{Grain, Mass, Scale};
use std::marker::Model;

/// A sum of masses times grains: a probability in units of `Q` times ten to the eighteenth, at most
/// two to the 107th.
#[derive(Clone, Copy, Debug, PartialEq, Eq, PartialOrd, Ord)]
pub struct Heft {
    value: u128,
}

impl Model for Heft {
    ghost Value = { ℕ };

    ghost view = { λ a. a.value };

    ghost inverse = { λ n. record { value = n } };

    ghost invariant = { λ a. a.value ≤ HEFT_LIMIT };
}

impl Heft {
    /// The empty sum.
    pub const ZERO: Heft = Heft { value: 0 };

    /// The heft of this number. None exactly where it exceeds two to the 107th.
    pub fn new(value: u128) -> Option<Heft>
        ensures some { IsSome result ↔ (value ≤ HEFT_LIMIT) }
        ensures value { IfSome result (λ heft. heft ≡ value) }
    {
        if value <= 1u128 << 107 {
            Some(Heft { value })
        } else {
            None
        }
    }

    /// Its number.
    pub fn get(self) -> u128
        ensures value { result ≡ self }
        ensures within { self ≤ HEFT_LIMIT }
    {
        self.value
    }

    /// The sum of both.
    pub fn plus(self, other: Heft) -> Heft
        requires { self + other ≤ HEFT_LIMIT }
        ensures { result ≡ self + other }
    {
        Heft {
            value: self.value + other.value,
        }
    }

    /// The floor of the quotient by `Q`.
    pub fn down(self, scale: Scale) -> Grain
        requires { self ≤ scale * ONE }
        ensures { result ≡ floor_by scale self }
    {
        Grain {
            value: scale.divide(self.value),
        }
    }

    /// The ceiling of the quotient by `Q`.
    pub fn up(self, scale: Scale) -> Grain
        requires { self ≤ scale * ONE }
        ensures { result ≡ ceiling_by scale self }
    {
        let q = u128::from(scale.get());
        Grain {
            value: scale.divide(self.value + (q - 1)),
        }
    }
}

impl Mass {
    /// The product of a mass and a probability.
    pub fn times(self, grain: Grain) -> Heft
        ensures value { result ≡ self * grain }
        ensures within { result ≤ self * ONE }
    {
        Heft {
            value: u128::from(self.0) * u128::from(grain.value),
        }
    }
}
