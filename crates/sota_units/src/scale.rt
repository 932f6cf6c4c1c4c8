// The denominator of masses.
ghost use Rattle.std.specs.Prelude.{ℕ, ◌≡◌, ◌+◌, ◌*◌, ◌/◌, ◌%◌, ◌<◌, ◌≤◌, ◌↔◌, IfSome, IsSome};
ghost use Rattle.sota_units.specs.Rounding.{ONE, SCALE_LIMIT};

use crate::SCALE_LIMIT;
use std::marker::Model;

/// The denominator `Q` of a network's masses, from 1 to 1,000,000,000.
#[derive(Clone, Copy, Debug, PartialEq, Eq)]
pub struct Scale {
    q: u32,
    /// The quotient of the greatest `u64` by `q`: a product by it stands for a division by `q`.
    inverse: u64,
}

impl Model for Scale {
    ghost Value = { ℕ };

    ghost view = { λ a. a.q };

    ghost inverse = { λ n. record { q = n; inverse = 18446744073709551615 / n } };

    ghost invariant = { λ a.
        (1 ≤ a.q) × (a.q ≤ SCALE_LIMIT) × (a.inverse ≡ 18446744073709551615 / a.q) };
}

impl Scale {
    /// The scale of certain times: one mass is everything.
    pub const ONE: Scale = Scale {
        q: 1,
        inverse: u64::MAX,
    };

    /// The scale of this number. None exactly where it is 0 or above 1,000,000,000.
    pub fn new(q: u32) -> Option<Scale>
        ensures some { IsSome result ↔ ((1 ≤ q) × (q ≤ SCALE_LIMIT)) }
        ensures value { IfSome result (λ scale. scale ≡ q) }
    {
        if q >= 1 && q <= SCALE_LIMIT {
            let inverse = u64::MAX / u64::from(q);
            Some(Scale { q, inverse })
        } else {
            None
        }
    }

    /// The number `Q`.
    pub fn get(self) -> u32
        ensures value { result ≡ self }
        ensures positive { 1 ≤ self }
        ensures within { self ≤ SCALE_LIMIT }
    {
        self.q
    }

    /// The floor of the quotient of a sum by `Q`, in two digits of 32 bits.
    pub(crate) fn divide(self, sum: u128) -> u64
        requires { sum ≤ self * 1000000001000000000 }
        ensures { result ≡ sum / self }
    {
        let q = u64::from(self.q);
        let (upper, rest) = quotient((sum / 4_294_967_296) as u64, q, self.inverse);
        let below = rest * 4_294_967_296 + (sum % 4_294_967_296) as u64;
        let (lower, _) = quotient(below, q, self.inverse);
        upper * 4_294_967_296 + lower
    }
}

/// The quotient and the remainder of x by q. A product by the inverse guesses the quotient right or
/// one too small.
#[inline(always)]
fn quotient(x: u64, q: u64, inverse: u64) -> (u64, u64)
    requires positive { 1 ≤ q }
    requires inverse { inverse ≡ 18446744073709551615 / q }
    ensures quotient { result.0 ≡ x / q }
    ensures remainder { result.1 ≡ x % q }
{
    let guess = (u128::from(x) * u128::from(inverse) / 18_446_744_073_709_551_616) as u64;
    let rest = x - guess * q;
    if rest >= q {
        (guess + 1, rest - q)
    } else {
        (guess, rest)
    }
}
