// The times of arcs from the entries of a histogram text.
ghost use Rattle.std.specs.Prelude.{◌≡◌, ◌≤◌, ◌<◌, ◌^◌, ◌==◌, [], Ok, length, OnOk};
ghost use Rattle.std.specs.List.{All, prefix_len};
ghost use Rattle.sota_units.specs.Limits.{ARC_LIMIT};
ghost use Rattle.sota_units.specs.Memory.{Answers, AnswersBy};
ghost use Rattle.sota_hist.specs.Time.{IsTime};
ghost use Rattle.sota_histcsv.specs.Words.{is_shortage};
ghost use Rattle.sota_histcsv.specs.Histograms.{fault_first, tick_pairs, timed, time_by};
ghost use Rattle.sota_histcsv.specs.Histograms.{time_fault};
ghost use Rattle.sota_histcsv.specs.Kept.{contents_in, HasNoZero, PlacesRise};

use crate::entry::Entry;
use crate::fault::HistFileFault;
use crate::table::Table;
use sota_dimacs::RawArc;
use sota_hist::laws::order_of_pairs;
use sota_hist::{Histogram, total_of};
use sota_network::Arc;
use sota_units::{ArcId, Mass, NoMemory, Scale, Tick};
use std::alloc::Global;

/// The arcs of a graph with the times of a table, where each has one.
pub(crate) fn timed_arcs(
    alloc: Global,
    table: &Table,
    raw: &[RawArc],
) -> Result<Vec<Arc>, HistFileFault>
    requires few { length raw.now ≤ ARC_LIMIT }
    requires each { All HasNoZero table.now.entries.items }
    requires rise { PlacesRise table.now.entries.items }
    requires room { length table.now.entries.items < 2 ^ 32 }
    ensures { AnswersBy is_shortage (λ arcs. arcs.items) result
        (timed (contents_in table.now) raw.now) }
{
    order_of_pairs();
    let mut arcs = Vec::new(alloc);
    if arcs.reserve(raw.len()).is_err() {
        return Err(HistFileFault::NoMemory);
    }
    let mut pairs = Vec::new(alloc);
    let mut rest = table.entries.as_slice();
    for (index, arc) in raw.iter().enumerate() {
        let number = ArcId(index as u32 + 1);
        let (mine, others) = rest.split_at(count_first(rest, number));
        rest = others;
        put_pairs(&mut pairs, mine)?;
        let time = time_of(alloc, table.scale, number, arc.weight, &pairs)?;
        let (tail, head) = (arc.tail, arc.head);
        if arcs.push(Arc { tail, head, time }).is_err() {
            return Err(HistFileFault::NoMemory);
        }
    }
    Ok(arcs)
}

/// How many entries at the front are of the arc.
fn count_first(entries: &[Entry], arc: ArcId) -> usize
    ensures { result ≡ prefix_len (λ entry. entry.arc == arc) entries.now }
{
    for (index, entry) in entries.iter().enumerate() {
        if entry.arc != arc {
            return index;
        }
    }
    entries.len()
}

/// Makes a list the ticks and masses of entries.
fn put_pairs(pairs: &mut Vec<(Tick, Mass)>, entries: &[Entry]) -> Result<(), NoMemory>
    ensures { OnOk result (pairs.new.items ≡ tick_pairs entries.now) }
{
    pairs.clear();
    for entry in entries {
        pairs.push((entry.tick, entry.mass))?;
    }
    Ok(())
}

/// The time of an arc that has these pairs.
fn time_of(
    alloc: Global,
    scale: Scale,
    number: ArcId,
    weight: u32,
    pairs: &[(Tick, Mass)],
) -> Result<Histogram, HistFileFault>
    requires rise { IsTime pairs.now }
    requires room { length pairs.now < 2 ^ 32 }
    ensures { Answers is_shortage result
        (fault_first (time_fault scale number weight pairs.now)
        (Ok (time_by scale weight pairs.now))) }
{
    if pairs.is_empty() {
        return certain_time(alloc, scale, number, weight);
    }
    order_of_pairs();
    if total_of(pairs) > u64::from(scale.get()) {
        return Err(HistFileFault::Sum(number.get()));
    }
    Ok(Histogram::from_rising(alloc, pairs)?)
}

/// All mass at the weight of an arc.
fn certain_time(
    alloc: Global,
    scale: Scale,
    number: ArcId,
    weight: u32,
) -> Result<Histogram, HistFileFault>
    ensures { Answers is_shortage result
        (fault_first (time_fault scale number weight []) (Ok (time_by scale weight []))) }
{
    if weight == 0 {
        return Err(HistFileFault::ZeroTime(number.get()));
    }
    Ok(Histogram::certain(alloc, scale, Tick(weight))?)
}
