// One pass over the records of a histogram text.
ghost use Rattle.std.specs.Prelude.{◌≡◌, ◌≤◌, ◌<◌, ◌^◌, ◌++◌, [], false, length, None, Some, Ok};
ghost use Rattle.std.specs.Prelude.{option_to_list, OnOk, IfOk, IfSome, MatchResult};
ghost use Rattle.csv.specs.Records.{fields_of};
ghost use Rattle.sota_units.specs.Limits.{TEXT_LIMIT};
ghost use Rattle.sota_histcsv.specs.Records.{is_marked, text_records, scale_in, header_scale};
ghost use Rattle.sota_histcsv.specs.Records.{row_entry, kept, is_arc, own_fault};
ghost use Rattle.sota_histcsv.specs.Histograms.{fault_first, contents};
ghost use Rattle.sota_histcsv.specs.Kept.{contents_in, Tabulates, NumbersRise};
ghost use Rattle.sota_histcsv.specs.Repeats.{first_repeat};

use crate::entry::Entry;
use crate::fault::HistFileFault;
use crate::records::{next_record, reader_of, three_fields};
use crate::repeats::{least_repeat, sort_by_place};
use csv::ByteRecord;
use sota_text::read_u32;
use sota_units::{ArcId, NoMemory, Scale};
use std::alloc::Global;

/// The scale of a histogram text, and what its records say that are not dropped.
#[derive(Drop)]
pub(crate) struct Table {
    pub(crate) scale: Scale,
    pub(crate) entries: Vec<Entry>,
}

/// The contents of a text for a graph with so many arcs, by rising places, or the first fault of a
/// record. Linear but for one sort.
pub(crate) fn read_table(alloc: Global, text: &[u8], arcs: u32) -> Result<Table, HistFileFault>
    requires size { length text.now ≤ TEXT_LIMIT }
    requires plain { is_marked text.now ≡ false }
    ensures holds { Tabulates result (contents arcs (text_records text.now)) }
    ensures few { IfOk result (λ table. length table.entries.items < 2 ^ 32) }
{
    let mut reader = reader_of(alloc, text);
    let mut row = ByteRecord::new(alloc);
    if !next_record(&mut reader, &mut row)? {
        return Err(HistFileFault::Header);
    }
    let Some(scale) = header_scale(&row) else {
        return Err(HistFileFault::Header);
    };
    let mut entries = Vec::new(alloc);
    for number in 1..u32::MAX {
        if !next_record(&mut reader, &mut row)? {
            return arrange(Table { scale, entries }, None);
        }
        match kept_entry(arcs, number, &row) {
            Ok(entry) => keep(&mut entries, entry)?,
            Err(fault) => return arrange(Table { scale, entries }, Some(fault)),
        }
    }
    unreachable!()
}

/// The table with its entries by rising places, or the fault of the first record that repeats a
/// place, or else that of a record after all of these, if there is one.
fn arrange(table: Table, fault: Option<HistFileFault>) -> Result<Table, HistFileFault>
    requires { NumbersRise table.entries.items }
    ensures holds { Tabulates result
        (fault_first (first_repeat [] table.entries.items)
        (fault_first fault (Ok (contents_in table)))) }
    ensures few { IfOk result (λ same. length same.entries.items ≡ length table.entries.items) }
{
    let Table { scale, mut entries } = table;
    sort_by_place(&mut entries);
    if let Some(number) = least_repeat(&entries) {
        return Err(HistFileFault::RepeatedTick(number));
    }
    match fault {
        Some(fault) => Err(fault),
        None => Ok(Table { scale, entries }),
    }
}

/// What a record says, if it is not dropped, or what is wrong with it by itself.
fn kept_entry(arcs: u32, number: u32, row: &ByteRecord) -> Result<Option<Entry>, HistFileFault>
    ensures fault { MatchResult result
        (λ entry. (own_fault arcs (number, fields_of row.now) ≡ None)
        × (entry ≡ kept (row_entry (number, fields_of row.now))))
        (λ fault. own_fault arcs (number, fields_of row.now) ≡ Some fault) }
    ensures number { IfOk result (λ entry. IfSome entry (λ entry. entry.number ≡ number)) }
{
    let entry = Entry::read(number, row)?;
    if !is_arc(arcs, entry.arc) {
        return Err(HistFileFault::NoArc(number));
    }
    if entry.mass.get() == 0 {
        return Ok(None);
    }
    if entry.tick.get() == 0 {
        return Err(HistFileFault::ZeroTick(number));
    }
    Ok(Some(entry))
}

/// Keeps an entry that is not dropped.
fn keep(entries: &mut Vec<Entry>, entry: Option<Entry>) -> Result<(), NoMemory>
    ensures { OnOk result (entries.new.items ≡ entries.old.items ++ option_to_list entry) }
{
    if let Some(entry) = entry {
        entries.push(entry)?;
    }
    Ok(())
}

/// Arcs are numbered from 1.
fn is_arc(arcs: u32, arc: ArcId) -> bool
    ensures { result ≡ is_arc arcs arc }
{
    let arc = arc.get();
    0 < arc && arc <= arcs
}

/// The scale of a header.
fn header_scale(row: &ByteRecord) -> Option<Scale>
    ensures { result ≡ header_scale (fields_of row.now) }
{
    let (arc, tick, mass) = three_fields(row)?;
    if arc != b"arc".as_slice() || tick != b"tick".as_slice() {
        return None;
    }
    scale_in(mass)
}

/// The scale in a field `mass/Q`.
fn scale_in(field: &[u8]) -> Option<Scale>
    ensures { result ≡ scale_in field.now }
{
    let digits = field.strip_prefix(b"mass/")?;
    Scale::new(read_u32(digits)?)
}
