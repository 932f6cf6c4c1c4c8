// The inputs of an ask whose travel times depend on the clock.
ghost use Rattle.std.specs.Prelude.{◌≡◌, ◌-◌, ◌∷◌, [], true, length, map, string_bytes, IfOk};
ghost use Rattle.sota_dimacs.specs.Graph.{IsGraph};
ghost use Rattle.sota_period.specs.Periods.{ArePeriodsInOrder};
ghost use Rattle.sota_app.specs.Later.{LATER_LIMIT, later_of, are_later};
ghost use Rattle.sota_app.specs.Words.{IsTimely};
ghost use Rattle.sota_app.specs.Outcome.{with_hists, periods_after, periods_of, one_scale};
ghost use Rattle.sota_app.specs.Outcome.{all_periods};
ghost use Rattle.sota_app.specs.Causes.{UnreadHists, UnreadPeriods, UnreadTimed};
ghost use Rattle.sota_app.specs.Inputs.{TextAnswers, InputAnswers, HasRoads, CanFollow};

use crate::input::{InputFault, NoInput};
use crate::inputs::{load_graph, load_hists};
use crate::words::{TimedWords, first_pair};
use sota_dimacs::RawGraph;
use sota_edge::Desk;
use sota_network::Network;
use sota_period::{ScaleDiffers, Timed};
use sota_units::{Items, NoMemory};
use std::alloc::Global;

/// A graph once more.
fn copy_graph(alloc: Global, graph: &RawGraph) -> Result<RawGraph, NoMemory>
    ensures { IfOk result (λ copy. copy ≡ graph.now) }
{
    let arcs = graph.arcs.as_slice().to_vec(alloc)?;
    Ok(RawGraph {
        nodes: graph.nodes,
        arcs: Items::new(arcs),
    })
}

/// The network of a graph, which stays, and of a word for its histograms.
fn load_over<D: Desk>(
    alloc: Global,
    graph: &RawGraph,
    hists: &str,
    desk: &mut D,
) -> Result<Network, NoInput>
    requires { IsGraph graph.now }
    ensures read { InputAnswers (λ network. network) result
        (λ files. with_hists hists.now files graph.now)
        (UnreadHists hists.now) (D.state desk.old) (D.state desk.new) }
    ensures roads { IfOk result (λ network. HasRoads graph.now network) }
{
    match copy_graph(alloc, graph) {
        Ok(copy) => load_hists(alloc, hists, copy, desk),
        Err(NoMemory) => Err(NoInput::NoMemory),
    }
}

/// The networks of the periods that are known, of the one that starts there, and of the later ones
/// of these words.
fn load_periods<D: Desk>(
    alloc: Global,
    graph: &RawGraph,
    start: u32,
    hists: &str,
    later: &[String],
    known: Vec<(u32, Network)>,
    desk: &mut D,
) -> Result<Vec<(u32, Network)>, NoInput>
    requires graph { IsGraph graph.now }
    requires follows { CanFollow graph.now known.items start }
    requires later { are_later (LATER_LIMIT - length known.items) start
        (later_of (map string_bytes later.now)) ≡ true }
    ensures read { InputAnswers (λ periods. periods.items) result
        (λ files. periods_after graph.now files known.items
        ((start, hists.now) ∷ later_of (map string_bytes later.now)))
        (UnreadPeriods (λ name files. with_hists name files graph.now)
        ((start, hists.now) ∷ later_of (map string_bytes later.now)))
        (D.state desk.old) (D.state desk.new) }
    ensures order { IfOk result (λ periods. ArePeriodsInOrder periods.items) }
{
    let mut known = known;
    let network = load_over(alloc, graph, hists, desk)?;
    if known.push((start, network)).is_err() {
        return Err(NoInput::NoMemory);
    }
    match first_pair(later) {
        Some((start, hists, rest)) => {
            load_periods(alloc, graph, start, hists, rest, known, desk)
        }
        None => Ok(known),
    }
}

/// The network of periods, where their masses have one denominator.
fn join_periods(periods: Vec<(u32, Network)>) -> Result<Timed, NoInput>
    requires { ArePeriodsInOrder periods.items }
    ensures { TextAnswers result (one_scale periods.items) }
{
    match Timed::new(periods) {
        Ok(timed) => Ok(timed),
        Err(ScaleDiffers(place)) => Err(NoInput::Fault(InputFault::ScaleDiffers(place))),
    }
}

/// The network of periods of the clock that the words of a request name.
pub fn load_timed<D: Desk>(
    alloc: Global,
    words: &TimedWords<'_>,
    desk: &mut D,
) -> Result<Timed, NoInput>
    requires { IsTimely words.now }
    ensures { InputAnswers (λ periods. periods) result (periods_of words.now)
        (UnreadTimed words.now) (D.state desk.old) (D.state desk.new) }
{
    let graph = load_graph(alloc, words.graph, desk)?;
    let known = Vec::new(alloc);
    let periods = load_periods(alloc, &graph, 0, words.hists, words.later, known, desk)?;
    join_periods(periods)
}
