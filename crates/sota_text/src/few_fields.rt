// So many fields and no more.
ghost use Rattle.std.specs.Prelude.{◌≡◌, map, option_map};
ghost use Rattle.sota_text.specs.Spans.{bytes_of, AreWithin};
ghost use Rattle.sota_text.specs.Words.{three, four};

use crate::Fields;

/// The bytes of the fields of a line that are left, if they are three. None exactly where they are
/// fewer or more.
pub fn three_fields<'a>(
    line: &'a [u8],
    mut fields: Fields<'_>,
) -> Option<(&'a [u8], &'a [u8], &'a [u8])>
    requires { AreWithin line.now fields }
    ensures { option_map (λ words. (words.0.now, words.1.now, words.2.now)) result
        ≡ three (map (bytes_of line.now) fields.entry) }
{
    let first = fields.next()?;
    let second = fields.next()?;
    let third = fields.next()?;
    if fields.next().is_some() {
        return None;
    }
    Some((
        &line[first.from..first.to],
        &line[second.from..second.to],
        &line[third.from..third.to],
    ))
}

/// The bytes of the fields of a line that are left, if they are four. None exactly where they are
/// fewer or more.
pub fn four_fields<'a>(
    line: &'a [u8],
    mut fields: Fields<'_>,
) -> Option<(&'a [u8], &'a [u8], &'a [u8], &'a [u8])>
    requires { AreWithin line.now fields }
    ensures { option_map (λ words. (words.0.now, words.1.now, words.2.now, words.3.now)) result
        ≡ four (map (bytes_of line.now) fields.entry) }
{
    let first = fields.next()?;
    let (second, third, fourth) = three_fields(line, fields)?;
    Some((&line[first.from..first.to], second, third, fourth))
}
