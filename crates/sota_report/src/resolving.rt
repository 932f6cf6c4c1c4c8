// Lines of a script with names of places.
ghost use Rattle.std.specs.Prelude.{◌≡◌, ◌≤◌, ◌+◌, ◌++◌, length, decimal};
ghost use Rattle.std.specs.Prelude.{option_map, IfOk, OnOk};
ghost use Rattle.sota_units.specs.Memory.{AnswersBy, or_fault};
ghost use Rattle.sota_report.specs.Words.{is_unresolved_shortage};
ghost use Rattle.sota_report.specs.Resolved.{resolved, resolved_field, node_fields, begins_name};
ghost use Rattle.sota_report.specs.declared.fault.ResolveFault.TheVariants.{Place};

use crate::{Names, ResolveFault};
use sota_text::{Fields, TextOut};
use sota_units::NoMemory;
use std::alloc::Global;

/// The line of a script in which each name of a place has given way to the decimal number of its
/// node. Names are fields `@NAME` where a command has nodes: the two fields after `ask`, `policy`,
/// `bracket` and `need`, and the field after `route`. All other bytes stay. The answer is Place
/// exactly where such a name is not there.
pub fn resolve(alloc: Global, names: &Names, line: &[u8]) -> Result<Vec<u8>, ResolveFault>
    ensures meaning { AnswersBy is_unresolved_shortage (λ bytes. bytes.items) result
        (or_fault Place (resolved names.now line.now)) }
    ensures length { IfOk result (λ bytes. length bytes.items ≤ length line.now + 20) }
{
    let mut out = TextOut::new(alloc);
    let mut fields = Fields::new(line);
    let Some(word) = fields.next() else {
        out.bytes(line)?;
        return Ok(out.into_vec());
    };
    let mut left = node_fields(&line[word.from..word.to]);
    let mut done = 0;
    while left > 0 {
        let Some(field) = fields.next() else { break };
        out.bytes(&line[done..field.from])?;
        write_field(names, &line[field.from..field.to], &mut out)?;
        done = field.to;
        left -= 1;
    }
    out.bytes(&line[done..])?;
    Ok(out.into_vec())
}

/// How many fields after the word of a command stand for nodes.
fn node_fields(word: &[u8]) -> u32
    ensures meaning { result ≡ node_fields word.now }
    ensures few { result ≤ 2 }
{
    if word == b"ask".as_slice()
        || word == b"policy".as_slice()
        || word == b"bracket".as_slice()
        || word == b"need".as_slice()
    {
        2
    } else if word == b"route".as_slice() {
        1
    } else {
        0
    }
}

/// Appends what a field stands for: the field, or at most ten digits.
fn write_field(names: &Names, field: &[u8], out: &mut TextOut) -> Result<(), ResolveFault>
    ensures length { OnOk result (length out.new ≤ length out.old + length field.now + 10) }
    ensures meaning { AnswersBy is_unresolved_shortage (λ _. out.new) result
        (or_fault Place (option_map (λ text. out.old ++ text)
        (resolved_field names.now field.now))) }
{
    if field.is_empty() || field[0] != b'@' {
        out.bytes(field)?;
        return Ok(());
    }
    let node = names.find_bytes(&field[1..]).ok_or(ResolveFault::Place)?;
    write_node(node, out)?;
    Ok(())
}

/// Appends the number of a node, which has at most ten digits.
fn write_node(node: u32, out: &mut TextOut) -> Result<(), NoMemory>
    ensures text { OnOk result (out.new ≡ out.old ++ decimal node) }
    ensures length { OnOk result (length out.new ≤ length out.old + 10) }
{
    out.number(u128::from(node))?;
    Ok(())
}
