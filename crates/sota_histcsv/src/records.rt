// The records of a text, one at a time.
ghost use Rattle.std.specs.Prelude.{◌≡◌, ℕ, List, false, option_map};
ghost use Rattle.csv.specs.Records.{fields_of};
ghost use Rattle.sota_text.specs.Words.{three};
ghost use Rattle.sota_histcsv.specs.Records.{is_marked, text_records};
ghost use Rattle.sota_histcsv.specs.Left.{Leaves, TakesRecord};

use csv::{ByteRecord, Reader, ReaderBuilder};
use sota_units::NoMemory;
use std::alloc::Global;

/// A reader of all records of a text, the header too.
pub(crate) fn reader_of<'a>(alloc: Global, text: &'a [u8]) -> Reader<&'a [u8]>
    requires { is_marked text.now ≡ false }
    ensures { Leaves result (text_records text.now) }
{
    ReaderBuilder::new()
        .has_headers(false)
        .flexible(true)
        .from_reader(alloc, text)
}

/// Puts the next record into the row, and answers whether there was one. Each error that `csv`
/// reports is taken for want of memory: it has no other cause over bytes in memory.
pub(crate) fn next_record(
    reader: &mut Reader<&[u8]>,
    row: &mut ByteRecord,
) -> Result<bool, NoMemory>
    ensures { (left : List (List (List ℕ))) → Leaves reader.old left
        → TakesRecord result left reader.new (fields_of row.new) }
{
    match reader.read_byte_record(row) {
        Ok(found) => Ok(found),
        Err(_) => Err(NoMemory),
    }
}

/// The fields of a record, if they are three.
pub(crate) fn three_fields(row: &ByteRecord) -> Option<(&[u8], &[u8], &[u8])>
    ensures { option_map (λ words. (words.0.now, words.1.now, words.2.now)) result
        ≡ three (fields_of row.now) }
{
    if row.len() != 3 {
        return None;
    }
    Some((row.get(0)?, row.get(1)?, row.get(2)?))
}
