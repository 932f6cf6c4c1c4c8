// Files are read in one pass. Lists grow as entries are found, so no head costs memory that the
// bytes do not back.
ghost use Rattle.std.specs.Prelude.{◌≡◌, ◌+◌, ◌*◌, ◌≤◌, length, IfOk, IfErr, OnOk, Ok, None};
ghost use Rattle.sota_units.specs.Memory.{Answers, IsFault};
ghost use Rattle.sota_polfile.specs.Limits.{POLICY_LIMIT};
ghost use Rattle.sota_polfile.specs.Words.{is_shortage};
ghost use Rattle.sota_polfile.specs.Table.{Table, IsTable};
ghost use Rattle.sota_polfile.specs.Spelling.{spelling};
ghost use Rattle.sota_polfile.specs.Places.{head_at, policy_row_at, rows_at, start};
ghost use Rattle.sota_polfile.specs.Faults.{row_fault_at, file_rows_fault, policy_of, fault_or};

use crate::head::read_head;
use crate::places::Stored;
use crate::{PolicyEntries, PolicyEntry, PolicyFault, PolicyHead, PolicyRow, PolicyTable, places};
use std::alloc::Global;

const MAGIC: [u8; 8] = *b"SOTAPOL1";
/// The length of a head in bytes.
const HEAD: usize = 32;
/// The length of a row head in bytes.
const ROW_HEAD: usize = 12;
/// The length of an entry in bytes.
const ENTRY: usize = PolicyEntry::LENGTH;

/// The row of this number at this place, after a row of the node `before`.
fn read_row(
    alloc: Global,
    bytes: &[u8],
    head: &PolicyHead,
    at: usize,
    before: Option<u32>,
    number: u32,
) -> Result<PolicyRow, PolicyFault>
    requires { at ≤ length bytes.now }
    ensures { Answers is_shortage result
        (fault_or (row_fault_at bytes.now head.now at before number) (policy_row_at bytes.now at)) }
{
    let left = bytes.len() - at;
    if left < ROW_HEAD {
        return Err(PolicyFault::Truncated(at as u64));
    }
    let row = places::row_head_at(bytes, at);
    if let Some(fault) = row.fault(head, before, number) {
        return Err(fault);
    }
    let whole = (left - ROW_HEAD) / ENTRY;
    if (whole as u64) < row.count {
        return Err(PolicyFault::Truncated((at + ROW_HEAD + ENTRY * whole) as u64));
    }
    let entries = places::all_at(alloc, bytes, at + ROW_HEAD, row.count as usize)?;
    Ok(PolicyRow {
        node: row.node,
        first: row.first,
        entries: PolicyEntries::new(entries),
    })
}

/// The rows of a file, and where they end.
fn read_rows(
    alloc: Global,
    bytes: &[u8],
    head: &PolicyHead,
    count: u32,
) -> Result<(Vec<PolicyRow>, usize), PolicyFault>
    requires head { head.now ≡ head_at bytes.now }
    requires whole { 32 ≤ length bytes.now }
    ensures rows { IfOk result (λ read. read.0.items ≡ rows_at bytes.now 0 count) }
    ensures end { IfOk result (λ read. (read.1 ≡ start bytes.now count)
        × (read.1 ≤ length bytes.now)) }
    ensures none { OnOk result (file_rows_fault bytes.now 0 count ≡ None) }
    ensures fault { IfErr result (IsFault is_shortage (file_rows_fault bytes.now 0 count)) }
{
    let mut rows = Vec::new(alloc);
    let mut at = HEAD;
    let mut before = None;
    for k in 0..count {
        let row = read_row(alloc, bytes, head, at, before, k + 1)?;
        before = Some(row.node);
        at += ROW_HEAD + ENTRY * row.entries.len();
        rows.push(row)?;
    }
    Ok((rows, at))
}

/// The table that bytes spell, or their first fault.
fn table_of(alloc: Global, bytes: &[u8]) -> Result<PolicyTable, PolicyFault>
    ensures { Answers is_shortage result (policy_of bytes.now) }
{
    let head = read_head(bytes, &MAGIC, HEAD)?;
    let (rows, end) = read_rows(alloc, bytes, &head, places::row_count(bytes))?;
    if end < bytes.len() {
        return Err(PolicyFault::Trailing(end as u64));
    }
    Ok(PolicyTable { head, rows })
}

/// The most bytes of a policy file of either version.
pub const POLICY_LIMIT: u32 = 1_400_000_000;

/// The table of a policy file, or the first fault of bytes that are none, from the front on. It
/// takes no memory that the bytes do not back, whatever numbers they claim. Who made the file does
/// not matter: arcs and values are as they stand.
pub fn read_policy(alloc: Global, bytes: &[u8]) -> Result<PolicyTable, PolicyFault>
    requires { length bytes.now ≤ POLICY_LIMIT }
    // What is read and written again has the same bytes.
    ensures read { IfOk result (λ table. IsTable table × (bytes.now ≡ spelling table)) }
    // What is spelled so is read, unless memory runs out.
    ensures only { (table : Table) → IsTable table → bytes.now ≡ spelling table
        → Answers is_shortage result (Ok table) }
    // Any other list of bytes is answered with its first fault.
    ensures exact { Answers is_shortage result (policy_of bytes.now) }
{
    table_of(alloc, bytes)
}
