// The order of entries by their places, and the first that repeats a place.
ghost use Rattle.std.specs.Prelude.{◌≡◌, length};
ghost use Rattle.sota_histcsv.specs.Repeats.{IsByPlace, IsLeastRepeat, lesser, lesser_if};

use crate::entry::Entry;

/// Puts the entries in the order of their arcs, then ticks, then numbers.
pub(crate) fn sort_by_place(entries: &mut Vec<Entry>)
    ensures { IsByPlace entries.old.items entries.new.items }
{
    entries.sort_unstable_by_key(|entry| (entry.arc, entry.tick, entry.number));
}

/// The least number of an entry that stands after one of its place.
pub(crate) fn least_repeat(sorted: &[Entry]) -> Option<u32>
    ensures { IsLeastRepeat sorted.now (length sorted.now) result }
{
    let mut least = None;
    for index in 1..sorted.len() {
        least = lesser_if(least, sorted[index - 1], sorted[index]);
    }
    least
}

/// The lesser of a number, if any, and that of an entry, if one before it has its place.
fn lesser_if(least: Option<u32>, before: Entry, entry: Entry) -> Option<u32>
    ensures { result ≡ lesser_if least before entry }
{
    if before.arc == entry.arc && before.tick == entry.tick {
        Some(lesser(least, entry.number))
    } else {
        least
    }
}

/// The lesser of two numbers, of which one may lack.
fn lesser(least: Option<u32>, number: u32) -> u32
    ensures { result ≡ lesser least number }
{
    match least {
        Some(least) if least < number => least,
        _ => number,
    }
}
