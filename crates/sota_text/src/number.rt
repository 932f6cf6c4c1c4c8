// Numbers of decimal digits.
ghost use Rattle.std.specs.Prelude.{◌≡◌};
ghost use Rattle.sota_text.specs.Text.{number_of};

/// The number that the bytes write. None exactly where they are not one decimal digit or more, or
/// write more than 2^32 - 1.
pub fn read_u32(bytes: &[u8]) -> Option<u32>
    ensures { result ≡ number_of bytes.now }
{
    if bytes.is_empty() {
        return None;
    }
    let mut value: u64 = 0;
    for byte in bytes {
        if !byte.is_ascii_digit() {
            return None;
        }
        value = value * 10 + u64::from(*byte - b'0');
        if value > u64::from(u32::MAX) {
            return None;
        }
    }
    Some(value as u32)
}
