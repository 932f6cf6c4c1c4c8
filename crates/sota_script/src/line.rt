// Reading a line.
ghost use Rattle.std.specs.Prelude.{◌≡◌, ◌<◌, ◌^◌, ◌∷◌, map, length, IfOk, IfSome};
ghost use Rattle.std.specs.List.{position};
ghost use Rattle.sota_units.specs.Memory.{Answers, AnswersBy, or_fault};
ghost use Rattle.sota_text.specs.Spans.{bytes_of, AreWithin, IsWithin};
ghost use Rattle.sota_script.specs.Words.{is_shortage};
ghost use Rattle.sota_script.specs.Lines.{parse_line, parse_command, begins_with_hash};
ghost use Rattle.sota_script.specs.Lines.{parse_edit, parse_close, parse_ask_line, parse_policy};
ghost use Rattle.sota_script.specs.Lines.{parse_bracket, parse_named};
ghost use Rattle.sota_script.specs.Lines.{parse_route, parse_need, parse_ask, parse_number};
ghost use Rattle.sota_script.specs.Lines.{parse_name, grain_of};
ghost use Rattle.sota_script.specs.Lines.{pairs_of, pair_of, is_colon, numbers_of};
ghost use Rattle.sota_script.specs.Few.{HasFewPairs};
ghost use Rattle.sota_script.specs.declared.fault.LineFault.TheVariants.{Number};

use crate::{Ask3, Command, FileName, LineFault};
use sota_text::{Fields, Span, four_fields, read_u32, three_fields};
use sota_units::{ArcId, Grain, Items, Mass, NoMemory, Tick, read_grain};
use std::alloc::Global;

/// The command of a line, which stands without what ends it. None exactly where the line is blank
/// or a comment, whose first field begins with `#`.
///
/// Commands are `edit ARC T:M ..`, with one pair or more, `close ARC`, `ask O D T`,
/// `policy O D T NAME`, `bracket O D T NAME`, `route D T ARC ..`, with one arc or more, and
/// `need O D CONF TMAX`. Fields are parted by spaces and tabs.
pub fn read_line(alloc: Global, line: &[u8]) -> Result<Option<Command>, LineFault>
    requires { length line.now < 2 ^ 32 }
    ensures meaning { Answers is_shortage result (parse_line line.now) }
    ensures few { IfOk result (λ read. IfSome read (λ command. HasFewPairs command)) }
{
    let mut fields = Fields::new(line);
    let Some(first) = fields.next() else {
        return Ok(None);
    };
    let first = &line[first.from..first.to];
    if begins_comment(first) {
        return Ok(None);
    }
    Ok(Some(read_command(alloc, line, first, fields)?))
}

/// Whether a line with this first field is a comment: the field begins with `#`.
pub fn begins_comment(first: &[u8]) -> bool
    ensures { result ≡ begins_with_hash first.now }
{
    !first.is_empty() && first[0] == b'#'
}

/// The command of a word and the fields after it. Each word of a command has its arm here.
fn read_command(
    alloc: Global,
    line: &[u8],
    first: &[u8],
    fields: Fields<'_>,
) -> Result<Command, LineFault>
    requires { AreWithin line.now fields }
    ensures { Answers is_shortage result
        (parse_command first.now (map (bytes_of line.now) fields.entry)) }
{
    if first == b"edit".as_slice() {
        read_edit(alloc, line, fields)
    } else if first == b"close".as_slice() {
        read_close(line, fields)
    } else if first == b"ask".as_slice() {
        read_ask_line(line, fields)
    } else if first == b"policy".as_slice() {
        read_policy(alloc, line, fields)
    } else if first == b"bracket".as_slice() {
        read_bracket(alloc, line, fields)
    } else if first == b"route".as_slice() {
        read_route(alloc, line, fields)
    } else if first == b"need".as_slice() {
        read_need(line, fields)
    } else {
        Err(LineFault::Word)
    }
}

/// The edit of the fields after an `edit`.
fn read_edit(alloc: Global, line: &[u8], mut fields: Fields<'_>) -> Result<Command, LineFault>
    requires { AreWithin line.now fields }
    ensures { Answers is_shortage result (parse_edit (map (bytes_of line.now) fields.entry)) }
{
    let arc = fields.next().ok_or(LineFault::Count)?;
    let pair = fields.next().ok_or(LineFault::Count)?;
    let arc = read_number(&line[arc.from..arc.to])?;
    let pairs = read_pairs(alloc, line, pair, fields)?;
    Ok(Command::Edit {
        arc: ArcId(arc),
        pairs,
    })
}

/// The pairs of a field and of those after it.
fn read_pairs(
    alloc: Global,
    line: &[u8],
    first: Span,
    fields: Fields<'_>,
) -> Result<Items<(Tick, Mass)>, LineFault>
    requires first { IsWithin line.now first }
    requires fields { AreWithin line.now fields }
    ensures { Answers is_shortage result
        (or_fault Number (pairs_of (map (bytes_of line.now) (first ∷ fields.entry)))) }
{
    let mut pairs = Vec::new(alloc);
    pairs
        .push(read_pair(&line[first.from..first.to]).ok_or(LineFault::Number)?)
        .map_err(NoMemory::from)?;
    for field in fields {
        pairs
            .push(read_pair(&line[field.from..field.to]).ok_or(LineFault::Number)?)
            .map_err(NoMemory::from)?;
    }
    Ok(Items::new(pairs))
}

/// The tick and the mass of a field `T:M`.
fn read_pair(field: &[u8]) -> Option<(Tick, Mass)>
    ensures { result ≡ pair_of field.now }
{
    let colon = find_colon(field)?;
    let tick = read_u32(&field[..colon])?;
    let mass = read_u32(&field[colon + 1..])?;
    Some((Tick(tick), Mass(mass)))
}

/// Where the first colon stands.
fn find_colon(field: &[u8]) -> Option<usize>
    ensures value { result ≡ position is_colon field.now }
{
    field.iter().position(|byte| *byte == b':')
}

/// The route of the fields after a `route`.
fn read_route(alloc: Global, line: &[u8], mut fields: Fields<'_>) -> Result<Command, LineFault>
    requires { AreWithin line.now fields }
    ensures { Answers is_shortage result (parse_route (map (bytes_of line.now) fields.entry)) }
{
    let dest = fields.next().ok_or(LineFault::Count)?;
    let budget = fields.next().ok_or(LineFault::Count)?;
    let arc = fields.next().ok_or(LineFault::Count)?;
    Ok(Command::Route {
        dest: read_number(&line[dest.from..dest.to])?,
        budget: read_number(&line[budget.from..budget.to])?,
        arcs: read_arcs(alloc, line, arc, fields)?,
    })
}

/// The arcs of a field and of those after it.
fn read_arcs(
    alloc: Global,
    line: &[u8],
    first: Span,
    fields: Fields<'_>,
) -> Result<Items<ArcId>, LineFault>
    requires first { IsWithin line.now first }
    requires fields { AreWithin line.now fields }
    ensures { Answers is_shortage result
        (or_fault Number (numbers_of (map (bytes_of line.now) (first ∷ fields.entry)))) }
{
    let mut arcs = Vec::new(alloc);
    arcs.push(ArcId(read_number(&line[first.from..first.to])?))
        .map_err(NoMemory::from)?;
    for field in fields {
        arcs.push(ArcId(read_number(&line[field.from..field.to])?))
            .map_err(NoMemory::from)?;
    }
    Ok(Items::new(arcs))
}

/// The need of the fields after a `need`.
fn read_need(line: &[u8], fields: Fields<'_>) -> Result<Command, LineFault>
    requires { AreWithin line.now fields }
    ensures { result ≡ parse_need (map (bytes_of line.now) fields.entry) }
{
    let (origin, dest, confidence, most) = four_fields(line, fields).ok_or(LineFault::Count)?;
    Ok(Command::Need {
        ask: read_ask(origin, dest, most)?,
        confidence: read_confidence(confidence)?,
    })
}

/// The probability of a field.
fn read_confidence(field: &[u8]) -> Result<Grain, LineFault>
    ensures { result ≡ or_fault Number (grain_of field.now) }
{
    match read_grain(field) {
        Some(grain) if grain <= Grain::ONE => Ok(grain),
        _ => Err(LineFault::Number),
    }
}

/// The arc of the fields after a `close`.
fn read_close(line: &[u8], mut fields: Fields<'_>) -> Result<Command, LineFault>
    requires { AreWithin line.now fields }
    ensures { result ≡ parse_close (map (bytes_of line.now) fields.entry) }
{
    let arc = fields.next().ok_or(LineFault::Count)?;
    if fields.next().is_some() {
        return Err(LineFault::Count);
    }
    let arc = read_number(&line[arc.from..arc.to])?;
    Ok(Command::Close { arc: ArcId(arc) })
}

/// The command of the fields after an `ask`.
fn read_ask_line(line: &[u8], fields: Fields<'_>) -> Result<Command, LineFault>
    requires { AreWithin line.now fields }
    ensures { result ≡ parse_ask_line (map (bytes_of line.now) fields.entry) }
{
    let (origin, dest, budget) = three_fields(line, fields).ok_or(LineFault::Count)?;
    Ok(Command::Ask(read_ask(origin, dest, budget)?))
}

/// The command of the fields after a `policy`.
fn read_policy(alloc: Global, line: &[u8], fields: Fields<'_>) -> Result<Command, LineFault>
    requires { AreWithin line.now fields }
    ensures { Answers is_shortage result (parse_policy (map (bytes_of line.now) fields.entry)) }
{
    let (ask, name) = read_named(alloc, line, fields)?;
    Ok(Command::Policy { ask, name })
}

/// The command of the fields after a `bracket`.
fn read_bracket(alloc: Global, line: &[u8], fields: Fields<'_>) -> Result<Command, LineFault>
    requires { AreWithin line.now fields }
    ensures { Answers is_shortage result (parse_bracket (map (bytes_of line.now) fields.entry)) }
{
    let (ask, name) = read_named(alloc, line, fields)?;
    Ok(Command::Bracket { ask, name })
}

/// An ask, and the name under which what is planned for it is to be stored.
fn read_named(alloc: Global, line: &[u8], fields: Fields<'_>) -> Result<(Ask3, FileName), LineFault>
    requires { AreWithin line.now fields }
    ensures { Answers is_shortage result (parse_named (map (bytes_of line.now) fields.entry)) }
{
    let (origin, dest, budget, name) = four_fields(line, fields).ok_or(LineFault::Count)?;
    let ask = read_ask(origin, dest, budget)?;
    Ok((ask, read_name(alloc, name)?))
}

/// The ask of three fields.
fn read_ask(origin: &[u8], dest: &[u8], budget: &[u8]) -> Result<Ask3, LineFault>
    ensures { result ≡ parse_ask origin.now dest.now budget.now }
{
    Ok(Ask3 {
        origin: read_number(origin)?,
        dest: read_number(dest)?,
        budget: read_number(budget)?,
    })
}

/// The name that a field is.
#[tactic(auto, using(crate::proofs::Names::name_read, crate::proofs::Names::no_name))]
fn read_name(alloc: Global, field: &[u8]) -> Result<FileName, LineFault>
    ensures { Answers is_shortage result (parse_name field.now) }
{
    let text = str::from_utf8(field).map_err(|_| LineFault::Name)?;
    let name = String::from_str(alloc, text).map_err(NoMemory::from)?;
    Ok(FileName::new(name))
}

/// The number of a field.
fn read_number(field: &[u8]) -> Result<u32, LineFault>
    ensures { result ≡ parse_number field.now }
{
    read_u32(field).ok_or(LineFault::Number)
}
