// Probabilities as decimal text.
ghost use Rattle.std.specs.Prelude.{ℕ, ◌≡◌, ◌^◌, ◌<◌, ◌≤◌, length, IfNone, IfSome};
ghost use Rattle.sota_units.specs.GrainText.{fixed, grain_spelling};
ghost use Rattle.sota_units.specs.Rounding.{ONE};

use crate::Grain;
use itoa::Buffer;

/// A probability as one digit, a point and 18 digits.
pub fn grain_text(grain: Grain) -> [u8; 20]
    ensures { result ≡ grain_spelling grain }
{
    let one = Grain::ONE.value;
    let mut buffer = Buffer::new();
    // A leading 1 keeps the zeros after the point.
    let digits = buffer.format(one + grain.value % one).as_bytes();
    let mut text = [b'0' + (grain.value / one) as u8; 20];
    text[1] = b'.';
    text[2..].copy_from_slice(&digits[1..]);
    text
}

/// The probability of a text that `grain_text` gives. None exactly where the bytes are no such
/// text.
pub fn read_grain(bytes: &[u8]) -> Option<Grain>
    ensures some { IfSome result (λ grain. bytes.now ≡ grain_spelling grain) }
    ensures round_trip { (n : ℕ) → n ≤ ONE → bytes.now ≡ grain_spelling n → result ≡ Some n }
{
    if bytes.len() != 20 || bytes[1] != b'.' || !bytes[0].is_ascii_digit() {
        return None;
    }
    let whole = u64::from(bytes[0] - b'0');
    let units = read_digits(&bytes[2..])?;
    Grain::new(whole * Grain::ONE.value + units)
}

// The number of these decimal digits. None where a byte is no digit.
fn read_digits(digits: &[u8]) -> Option<u64>
    requires { length digits.now ≤ 18 }
    ensures below { IfSome result (λ n. n < 10 ^ length digits.now) }
    ensures some { IfSome result (λ n. digits.now ≡ fixed (length digits.now) n) }
    ensures none { IfNone result ((n : ℕ) → digits.now ≡ fixed (length digits.now) n → ⊥) }
{
    let mut number = 0;
    for digit in digits {
        if !digit.is_ascii_digit() {
            return None;
        }
        number = 10 * number + u64::from(*digit - b'0');
    }
    Some(number)
}

#[cfg(test)]
mod tests {
    use crate::{Grain, Heft, Items, Mass, Scale, grain_text, read_grain};
    use std::test::Fail;

    // The texts of probabilities, the sums and roundings of masses times probabilities, and a list.
    #[test]
    fn vectors(rt: HostRuntime) -> Result<(), Fail> {
        let texts: [(u64, &[u8; 20]); 3] = [
            (0, b"0.000000000000000000"),
            (1_000_000_000_000_000_000, b"1.000000000000000000"),
            (111_111_111_111_111_112, b"0.111111111111111112"),
        ];
        for (value, text) in texts {
            let grain = Grain::new(value).ok_or("a probability")?;
            assert_eq!(rt; grain_text(grain).as_slice(), text.as_slice());
            assert_eq!(rt; read_grain(text), Some(grain));
            assert_eq!(rt; grain.get(), value);
        }
        for text in [
            b"1.000000000000000001".as_slice(),
            b"0.5",
            b"",
            b"0,000000000000000000",
        ] {
            assert_eq!(rt; read_grain(text), None);
        }
        let four = Scale::new(4).ok_or("a scale")?;
        for (value, down, up) in [(10, 2, 3), (12, 3, 3)] {
            let heft = Heft::new(value).ok_or("a heft")?;
            assert_eq!(rt; heft.plus(Heft::ZERO).get(), value);
            assert_eq!(rt; heft.down(four).get(), down);
            assert_eq!(rt; heft.up(four).get(), up);
        }
        assert_eq!(rt; Mass(3).times(Grain::ONE).get(), 3_000_000_000_000_000_000);
        let items = Items::new([1u32, 2].to_vec(rt.alloc())?);
        assert!(rt; items.as_slice() == [1, 2].as_slice());
        assert_eq!(rt; items.into_vec().len(), 2);
        Ok(())
    }
}
