// Bracket files are read in one pass. Lists grow as entries are found, so no head costs memory that
// the bytes do not back.
ghost use Rattle.std.specs.Prelude.{◌≡◌, ◌+◌, ◌*◌, ◌≤◌, length, IfOk, IfErr, OnOk, None};
ghost use Rattle.sota_units.specs.Memory.{Answers, IsFault};
ghost use Rattle.sota_polfile.specs.Words.{is_shortage};
ghost use Rattle.sota_polfile.specs.Places.{head_at};
ghost use Rattle.sota_polfile.specs.Faults.{fault_or};
ghost use Rattle.sota_polfile.specs.BracketFile.{bracket_row_at, bracket_start};
ghost use Rattle.sota_polfile.specs.BracketFile.{bracket_rows_at, bracket_row_fault_at};
ghost use Rattle.sota_polfile.specs.BracketFile.{bracket_file_rows_fault, bracket_of};

use crate::head::read_head;
use crate::places::Stored;
use crate::{
    BracketEntries, BracketEntry, BracketHead, BracketRow, BracketTable, PolicyFault, places,
};
use std::alloc::Global;

pub(crate) const BRACKET_MAGIC: [u8; 8] = *b"SOTAPOL2";
/// The length of a head in bytes.
const HEAD: usize = 28;
/// The length of what stands before the entries of a node, in bytes.
const PART: usize = 8;
/// The length of an entry in bytes.
const ENTRY: usize = BracketEntry::LENGTH;

/// The row of this node at this place.
fn read_row(
    alloc: Global,
    bytes: &[u8],
    head: &BracketHead,
    at: usize,
    node: u32,
) -> Result<BracketRow, PolicyFault>
    requires { at ≤ length bytes.now }
    ensures { Answers is_shortage result
        (fault_or (bracket_row_fault_at bytes.now head.now node at) (bracket_row_at bytes.now at)) }
{
    let left = bytes.len() - at;
    if left < PART {
        return Err(PolicyFault::Truncated(at as u64));
    }
    let part = places::part_at(bytes, node, at);
    if let Some(fault) = part.part_fault(head) {
        return Err(fault);
    }
    let whole = (left - PART) / ENTRY;
    if (whole as u64) < part.count {
        return Err(PolicyFault::Truncated((at + PART + ENTRY * whole) as u64));
    }
    let entries = places::all_at(alloc, bytes, at + PART, part.count as usize)?;
    Ok(BracketRow {
        first: part.first,
        entries: BracketEntries::new(entries),
    })
}

/// The rows of a file, and where they end.
fn read_rows(
    alloc: Global,
    bytes: &[u8],
    head: &BracketHead,
) -> Result<(Vec<BracketRow>, usize), PolicyFault>
    requires head { head.now ≡ head_at bytes.now }
    requires whole { 28 ≤ length bytes.now }
    ensures rows { IfOk result (λ read.
        read.0.items ≡ bracket_rows_at bytes.now 0 head.now.nodes) }
    ensures end { IfOk result (λ read. (read.1 ≡ bracket_start bytes.now head.now.nodes)
        × (read.1 ≤ length bytes.now)) }
    ensures none { OnOk result (bracket_file_rows_fault bytes.now 0 head.now.nodes ≡ None) }
    ensures fault { IfErr result
        (IsFault is_shortage (bracket_file_rows_fault bytes.now 0 head.now.nodes)) }
{
    let mut rows = Vec::new(alloc);
    let mut at = HEAD;
    for k in 0..head.nodes {
        let row = read_row(alloc, bytes, head, at, k + 1)?;
        at += PART + ENTRY * row.entries.len();
        rows.push(row)?;
    }
    Ok((rows, at))
}

/// The table that bytes spell, or their first fault.
pub(crate) fn bracket_of(alloc: Global, bytes: &[u8]) -> Result<BracketTable, PolicyFault>
    ensures { Answers is_shortage result (bracket_of bytes.now) }
{
    let head = read_head(bytes, &BRACKET_MAGIC, HEAD)?;
    let (rows, end) = read_rows(alloc, bytes, &head)?;
    if end < bytes.len() {
        return Err(PolicyFault::Trailing(end as u64));
    }
    Ok(BracketTable { head, rows })
}
