// What a line is by itself.
ghost use Rattle.std.specs.Prelude.{◌≡◌, map};
ghost use Rattle.sota_text.specs.Text.{fields_of};
ghost use Rattle.sota_text.specs.Spans.{bytes_of, AreWithin};
ghost use Rattle.sota_dimacs.specs.Lines.{begins_comment, parse_problem, parse_arc, kind_of};

use crate::RawArc;
use sota_text::{Fields, read_u32, three_fields};
use sota_units::NodeId;

/// The numbers of nodes and arcs that a problem line announces.
#[derive(Clone, Copy, Debug, PartialEq, Eq)]
pub(crate) struct Problem {
    pub(crate) nodes: u32,
    pub(crate) arcs: u32,
}

/// What a line is by itself.
#[derive(Clone, Copy, Debug, PartialEq, Eq)]
pub(crate) enum LineKind {
    /// A blank line or a comment.
    Skipped,
    /// A problem line. None where its fields are not those of one.
    ProblemLine(Option<Problem>),
    /// An arc line. None where its fields are not those of one.
    ArcLine(Option<RawArc>),
    /// A line of no kind.
    Unknown,
}

/// The kind of a line, with what its fields hold.
pub(crate) fn read_line(line: &[u8]) -> LineKind
    ensures { result ≡ kind_of line.now }
{
    let mut fields = Fields::new(line);
    let Some(first) = fields.next() else {
        return LineKind::Skipped;
    };
    let first = &line[first.from..first.to];
    if begins_comment(first) {
        LineKind::Skipped
    } else if first == b"p".as_slice() {
        LineKind::ProblemLine(read_problem(line, fields))
    } else if first == b"a".as_slice() {
        LineKind::ArcLine(read_arc(line, fields))
    } else {
        LineKind::Unknown
    }
}

/// A comment is a line whose first field begins with `c`.
fn begins_comment(first: &[u8]) -> bool
    ensures { result ≡ begins_comment first.now }
{
    !first.is_empty() && first[0] == b'c'
}

/// The problem of the fields after a `p`.
fn read_problem(line: &[u8], fields: Fields<'_>) -> Option<Problem>
    requires { AreWithin line.now fields }
    ensures { result ≡ parse_problem (map (bytes_of line.now) fields.entry) }
{
    let (profile, nodes, arcs) = three_fields(line, fields)?;
    let nodes = read_u32(nodes)?;
    let arcs = read_u32(arcs)?;
    if profile != b"sp".as_slice() {
        return None;
    }
    Some(Problem { nodes, arcs })
}

/// The arc of the fields after an `a`.
fn read_arc(line: &[u8], fields: Fields<'_>) -> Option<RawArc>
    requires { AreWithin line.now fields }
    ensures { result ≡ parse_arc (map (bytes_of line.now) fields.entry) }
{
    let (tail, head, weight) = three_fields(line, fields)?;
    let tail = NodeId(read_u32(tail)?);
    let head = NodeId(read_u32(head)?);
    let weight = read_u32(weight)?;
    Some(RawArc { tail, head, weight })
}
