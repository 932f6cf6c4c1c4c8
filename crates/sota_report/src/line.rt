// Reading a line of names.
ghost use Rattle.std.specs.Prelude.{◌≡◌, ◌∷◌, option_map, map};
ghost use Rattle.sota_units.specs.Memory.{AnswersBy, Answers};
ghost use Rattle.sota_text.specs.Text.{fields_of};
ghost use Rattle.sota_text.specs.Spans.{bytes_of, AreWithin};
ghost use Rattle.sota_report.specs.Words.{is_shortage};
ghost use Rattle.sota_report.specs.Names.{parse_place_fields, parse_place, parse_node};
ghost use Rattle.sota_report.specs.Names.{parse_place_name};

use crate::NamesFault;
use sota_script::begins_comment;
use sota_text::{Fields, read_u32};

/// The name and the node of a line of this number, for a network with so many nodes. None exactly
/// where the line is blank or a comment, whose first field begins with `#`.
pub fn read_place(nodes: u32, number: u32, line: &[u8]) -> Result<Option<(&str, u32)>, NamesFault>
    ensures { AnswersBy is_shortage (option_map (λ place. (place.0.now, place.1))) result
        (parse_place_fields nodes number (fields_of line.now)) }
{
    let mut fields = Fields::new(line);
    let Some(first) = fields.next() else {
        return Ok(None);
    };
    let first = &line[first.from..first.to];
    if begins_comment(first) {
        return Ok(None);
    }
    Ok(Some(read_fields(nodes, number, line, first, fields)?))
}

/// The name and the node of a first field and of those after it.
fn read_fields<'a>(
    nodes: u32,
    number: u32,
    line: &'a [u8],
    first: &[u8],
    mut fields: Fields<'_>,
) -> Result<(&'a str, u32), NamesFault>
    requires { AreWithin line.now fields }
    ensures { AnswersBy is_shortage (λ place. (place.0.now, place.1)) result
        (parse_place nodes number (first.now ∷ map (bytes_of line.now) fields.entry)) }
{
    let name = fields.next().ok_or(NamesFault::Fields(number))?;
    if fields.next().is_some() {
        return Err(NamesFault::Fields(number));
    }
    let node = read_node(nodes, number, first)?;
    let name = read_name(number, &line[name.from..name.to])?;
    Ok((name, node))
}

/// The node of a field.
fn read_node(nodes: u32, number: u32, field: &[u8]) -> Result<u32, NamesFault>
    ensures { result ≡ parse_node nodes number field.now }
{
    let node = read_u32(field).ok_or(NamesFault::Number(number))?;
    if node == 0 || node > nodes {
        return Err(NamesFault::NodeRange(number));
    }
    Ok(node)
}

/// The name that a field is.
#[tactic(auto, using(crate::proofs::Texts::name_read, crate::proofs::Texts::no_name))]
fn read_name(number: u32, field: &[u8]) -> Result<&str, NamesFault>
    ensures { AnswersBy is_shortage (λ name. name.now) result (parse_place_name number field.now) }
{
    str::from_utf8(field).map_err(|_| NamesFault::NotText(number))
}
