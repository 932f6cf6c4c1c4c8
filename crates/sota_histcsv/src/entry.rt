// What a record of a histogram text says by itself.
ghost use Rattle.std.specs.Prelude.{ℕ, ◌≡◌, Some, IfOk, IfSome, MatchResult};
ghost use Rattle.csv.specs.Records.{fields_of};
ghost use Rattle.sota_histcsv.specs.Records.{entry_by, row_entry, own_fault};

use crate::fault::HistFileFault;
use crate::records::three_fields;
use csv::ByteRecord;
use sota_text::read_u32;
use sota_units::{ArcId, Mass, Tick};

/// A record of three numbers, with its own number, counted from 0, the header: the mass that it
/// gives to a tick of an arc.
#[derive(Clone, Copy, Debug, PartialEq, Eq)]
pub(crate) struct Entry {
    pub(crate) number: u32,
    pub(crate) arc: ArcId,
    pub(crate) tick: Tick,
    pub(crate) mass: Mass,
}

impl Entry {
    /// What the record of this number says, where its fields are three numbers.
    pub(crate) fn read(number: u32, row: &ByteRecord) -> Result<Entry, HistFileFault>
        ensures value { MatchResult result
            (λ entry. row_entry (number, fields_of row.now) ≡ Some entry)
            (λ fault. (arcs : ℕ) → own_fault arcs (number, fields_of row.now) ≡ Some fault) }
        ensures number { IfOk result (λ entry. entry.number ≡ number) }
    {
        let Some((arc, tick, mass)) = three_fields(row) else {
            return Err(HistFileFault::Fields(number));
        };
        let Some(entry) = Entry::of_words(number, arc, tick, mass) else {
            return Err(HistFileFault::Number(number));
        };
        Ok(entry)
    }

    /// What three fields say, where they are numbers.
    fn of_words(number: u32, arc: &[u8], tick: &[u8], mass: &[u8]) -> Option<Entry>
        ensures value { result ≡ entry_by number (arc.now, tick.now, mass.now) }
        ensures number { IfSome result (λ entry. entry.number ≡ number) }
    {
        let arc = ArcId(read_u32(arc)?);
        let tick = Tick(read_u32(tick)?);
        let mass = Mass(read_u32(mass)?);
        Some(Entry {
            number,
            arc,
            tick,
            mass,
        })
    }
}
