// The words of the command line.
ghost use Rattle.std.specs.Prelude.{◌≡◌, ◌<◌, ◌≤◌, true, map, length, string_bytes, option_map};
ghost use Rattle.std.specs.Prelude.{IfSome};
ghost use Rattle.sota_make.specs.Made.{is_size};
ghost use Rattle.sota_app.specs.Words.{ask_of, ask_request, file_request, report_request};
ghost use Rattle.sota_app.specs.Words.{trips_of, replay_request, make_of, make_request};
ghost use Rattle.sota_app.specs.Later.{later_of, are_later, first_pair_of};
ghost use Rattle.sota_app.specs.Words.{timed_ask, timed_request};
ghost use Rattle.sota_app.specs.Words.{request_of, five, IsTimely, IsSized};
ghost use Rattle.sota_app.specs.Shown.{ask_made};
ghost use Rattle.sota_text.specs.Words.{three, four};

use sota_make::is_size;
use sota_script::Ask3;
use sota_text::read_u32;
use std::marker::Model;

/// The most trips of a request.
const TRIP_LIMIT: u32 = 1_000_000;

/// The most periods of a request after the first.
const LATER_LIMIT: u32 = 31;

/// The words `ask GRAPH HISTS O D T`: the names of the graph and of the histograms, and the ask.
#[derive(Drop)]
pub struct AskWords<'a> {
    pub graph: &'a str,
    pub hists: &'a str,
    pub ask: Ask3,
}

impl<'a> Model for AskWords<'a> {
    ghost use Rattle.sota_app.specs.Requests.{AskRequest};

    ghost Value = { AskRequest };

    ghost view = { λ words. record {
      graph = words.graph.now;
      hists = words.hists.now;
      ask = words.ask;
    } };
}

/// The words `GRAPH HISTS FILE`: the names of the graph, of the histograms and of a file.
#[derive(Drop)]
pub struct FileWords<'a> {
    pub graph: &'a str,
    pub hists: &'a str,
    pub file: &'a str,
}

impl<'a> Model for FileWords<'a> {
    ghost use Rattle.sota_app.specs.Requests.{FileRequest};

    ghost Value = { FileRequest };

    ghost view = { λ words. record {
      graph = words.graph.now;
      hists = words.hists.now;
      file = words.file.now;
    } };
}

/// The words `report GRAPH HISTS NAMES SCRIPT`: the names of the graph, of the histograms, of the
/// file of place names and of the script.
#[derive(Drop)]
pub struct ReportWords<'a> {
    pub graph: &'a str,
    pub hists: &'a str,
    pub names: &'a str,
    pub script: &'a str,
}

impl<'a> Model for ReportWords<'a> {
    ghost use Rattle.sota_app.specs.Requests.{ReportRequest};

    ghost Value = { ReportRequest };

    ghost view = { λ words. record {
      graph = words.graph.now;
      hists = words.hists.now;
      names = words.names.now;
      script = words.script.now;
    } };
}

/// So many trips, by the words of a seed.
#[derive(Clone, Copy, Debug, PartialEq, Eq)]
pub struct Trips {
    pub count: u32,
    pub seed: u32,
}

/// The words `replay GRAPH HISTS POLICY TRIPS SEED`.
#[derive(Drop)]
pub struct ReplayWords<'a> {
    pub names: FileWords<'a>,
    pub trips: Trips,
}

/// The words `make SEED NODES ARCS SPAN T`: the numbers of a network, and a budget.
#[derive(Clone, Copy, Debug, PartialEq, Eq)]
pub struct MakeWords {
    pub seed: u32,
    pub nodes: u32,
    pub arcs: u32,
    pub span: u32,
    pub budget: u32,
}

impl MakeWords {
    /// The ask from the first node to the last one.
    pub fn ask(&self) -> Ask3
        ensures { result ≡ ask_made self.now }
    {
        Ask3 {
            origin: 1,
            dest: self.nodes,
            budget: self.budget,
        }
    }
}

/// An ask, and where the clock shows when its budget ends.
#[derive(Clone, Copy, Debug, PartialEq, Eq)]
pub struct TimedAsk {
    pub ask: Ask3,
    pub deadline: u32,
}

/// The words `timed GRAPH O D T A HISTS (START HISTS)..`: the names of the graph and of the
/// histograms of the first period, what is asked, and the words of the further periods.
#[derive(Drop)]
pub struct TimedWords<'a> {
    pub graph: &'a str,
    pub hists: &'a str,
    pub asked: TimedAsk,
    pub later: &'a [String],
}

impl<'a> Model for TimedWords<'a> {
    ghost use Rattle.std.specs.Prelude.{map, string_bytes};
    ghost use Rattle.sota_app.specs.Requests.{TimedRequest};
    ghost use Rattle.sota_app.specs.Later.{later_of};

    ghost Value = { TimedRequest };

    ghost view = { λ words. record {
      graph = words.graph.now;
      hists = words.hists.now;
      asked = words.asked;
      later = later_of (map string_bytes words.later.now);
    } };
}

/// What the words ask for.
#[derive(Drop)]
pub enum Request<'a> {
    /// One ask.
    Ask(AskWords<'a>),
    /// Every line of a script in order.
    Run(FileWords<'a>),
    /// Whether a policy holds.
    Check(FileWords<'a>),
    /// How trips end that follow a policy.
    Replay(ReplayWords<'a>),
    /// The plan of a network that is made.
    Make(MakeWords),
    /// Every line of a script in order, with names of places, and replies for programs.
    Report(ReportWords<'a>),
    /// One ask where travel times depend on the clock.
    Timed(TimedWords<'a>),
}

/// The request of the words after the program's name. None exactly where they are no request.
pub fn read_words(words: &[String]) -> Option<Request<'_>>
    ensures request { result ≡ request_of (map string_bytes words.now) }
    ensures sized { IfSome result IsSized }
{
    let (first, rest) = words.split_first()?;
    if first.as_str() == "ask" {
        Some(Request::Ask(read_ask_words(rest)?))
    } else if first.as_str() == "run" {
        Some(Request::Run(read_file_words(rest)?))
    } else if first.as_str() == "check" {
        Some(Request::Check(read_file_words(rest)?))
    } else if first.as_str() == "replay" {
        Some(Request::Replay(read_replay_words(rest)?))
    } else if first.as_str() == "make" {
        Some(Request::Make(read_make_words(rest)?))
    } else if first.as_str() == "report" {
        Some(Request::Report(read_report_words(rest)?))
    } else if first.as_str() == "timed" {
        Some(Request::Timed(read_timed_words(rest)?))
    } else {
        None
    }
}

/// The words `GRAPH HISTS O D T`.
fn read_ask_words(words: &[String]) -> Option<AskWords<'_>>
    ensures { result ≡ ask_request (map string_bytes words.now) }
{
    let (graph, hists, origin, dest, budget) = five_words(words)?;
    let ask = read_ask(origin, dest, budget)?;
    Some(AskWords { graph, hists, ask })
}

/// The words `GRAPH HISTS FILE`.
fn read_file_words(words: &[String]) -> Option<FileWords<'_>>
    ensures { result ≡ file_request (map string_bytes words.now) }
{
    let (graph, hists, file) = three_words(words)?;
    Some(FileWords { graph, hists, file })
}

/// The words `GRAPH HISTS NAMES SCRIPT`.
fn read_report_words(words: &[String]) -> Option<ReportWords<'_>>
    ensures { result ≡ report_request (map string_bytes words.now) }
{
    let (graph, hists, names, script) = four_words(words)?;
    Some(ReportWords {
        graph,
        hists,
        names,
        script,
    })
}

/// The words `GRAPH HISTS POLICY TRIPS SEED`.
fn read_replay_words(words: &[String]) -> Option<ReplayWords<'_>>
    ensures { result ≡ replay_request (map string_bytes words.now) }
{
    let (graph, hists, file, count, seed) = five_words(words)?;
    let trips = read_trips(count, seed)?;
    Some(ReplayWords {
        names: FileWords { graph, hists, file },
        trips,
    })
}

/// The words, if they are five.
fn five_words(words: &[String]) -> Option<(&str, &str, &str, &str, &str)>
    ensures { option_map (λ w. (w.0.now, w.1.now, w.2.now, w.3.now, w.4.now)) result
        ≡ five (map string_bytes words.now) }
{
    if words.len() != 5 {
        return None;
    }
    let (first, second) = (words[0].as_str(), words[1].as_str());
    let (third, fourth, fifth) = (words[2].as_str(), words[3].as_str(), words[4].as_str());
    Some((first, second, third, fourth, fifth))
}

/// The words, if they are four.
fn four_words(words: &[String]) -> Option<(&str, &str, &str, &str)>
    ensures { option_map (λ w. (w.0.now, w.1.now, w.2.now, w.3.now)) result
        ≡ four (map string_bytes words.now) }
{
    if words.len() != 4 {
        return None;
    }
    let (first, second) = (words[0].as_str(), words[1].as_str());
    Some((first, second, words[2].as_str(), words[3].as_str()))
}

/// The words, if they are three.
fn three_words(words: &[String]) -> Option<(&str, &str, &str)>
    ensures { option_map (λ w. (w.0.now, w.1.now, w.2.now)) result
        ≡ three (map string_bytes words.now) }
{
    if words.len() != 3 {
        return None;
    }
    Some((words[0].as_str(), words[1].as_str(), words[2].as_str()))
}

/// The words `O D T`.
fn read_ask(origin: &str, dest: &str, budget: &str) -> Option<Ask3>
    ensures { result ≡ ask_of origin.now dest.now budget.now }
{
    Some(Ask3 {
        origin: read_u32(origin.as_bytes())?,
        dest: read_u32(dest.as_bytes())?,
        budget: read_u32(budget.as_bytes())?,
    })
}

/// The words `TRIPS SEED`. None where there are too many trips.
fn read_trips(count: &str, seed: &str) -> Option<Trips>
    ensures { result ≡ trips_of count.now seed.now }
{
    let count = read_u32(count.as_bytes())?;
    if count > TRIP_LIMIT {
        return None;
    }
    let seed = read_u32(seed.as_bytes())?;
    Some(Trips { count, seed })
}

/// The words `SEED NODES ARCS SPAN T`. None where no network is made of such numbers.
fn read_make_words(words: &[String]) -> Option<MakeWords>
    ensures request { result ≡ make_request (map string_bytes words.now) }
    ensures sized { IfSome result (λ make. is_size make.nodes make.arcs make.span ≡ true) }
{
    let (seed, nodes, arcs, span, budget) = five_words(words)?;
    let make = read_make(seed, nodes, arcs, span, budget)?;
    if !is_size(make.nodes, make.arcs, make.span) {
        return None;
    }
    Some(make)
}

/// Five numbers.
fn read_make(seed: &str, nodes: &str, arcs: &str, span: &str, budget: &str) -> Option<MakeWords>
    ensures { result ≡ make_of seed.now nodes.now arcs.now span.now budget.now }
{
    Some(MakeWords {
        seed: read_u32(seed.as_bytes())?,
        nodes: read_u32(nodes.as_bytes())?,
        arcs: read_u32(arcs.as_bytes())?,
        span: read_u32(span.as_bytes())?,
        budget: read_u32(budget.as_bytes())?,
    })
}

/// The words `GRAPH O D T A HISTS (START HISTS)..`.
fn read_timed_words(words: &[String]) -> Option<TimedWords<'_>>
    ensures request { result ≡ timed_request (map string_bytes words.now) }
    ensures timely { IfSome result (λ words. IsTimely words) }
{
    let (graph, words) = words.split_first()?;
    let (origin, words) = words.split_first()?;
    let (dest, words) = words.split_first()?;
    let (budget, words) = words.split_first()?;
    let (deadline, words) = words.split_first()?;
    let (hists, later) = words.split_first()?;
    let asked = read_timed_ask(
        origin.as_str(),
        dest.as_str(),
        budget.as_str(),
        deadline.as_str(),
    )?;
    if !are_later(LATER_LIMIT, 0, later) {
        return None;
    }
    Some(TimedWords {
        graph: graph.as_str(),
        hists: hists.as_str(),
        asked,
        later,
    })
}

/// The words `O D T A`. None where the trip would begin before the clock does.
fn read_timed_ask(origin: &str, dest: &str, budget: &str, deadline: &str) -> Option<TimedAsk>
    ensures request { result ≡ timed_ask origin.now dest.now budget.now deadline.now }
    ensures begins { IfSome result (λ asked. asked.ask.budget ≤ asked.deadline) }
{
    let ask = read_ask(origin, dest, budget)?;
    let deadline = read_u32(deadline.as_bytes())?;
    if ask.budget > deadline {
        return None;
    }
    Some(TimedAsk { ask, deadline })
}

/// The first of the pairs `(START HISTS)..`, and the words of the others. A START that is no number
/// counts as 0, and so does one without HISTS.
pub fn first_pair(words: &[String]) -> Option<(u32, &str, &[String])>
    ensures pairs { later_of (map string_bytes words.now) ≡ first_pair_of
        (option_map (λ pair. (pair.0, pair.1.now, map string_bytes pair.2.now)) result) }
    ensures fewer { IfSome result (λ pair. length pair.2.now < length words.now) }
{
    let (start, words) = words.split_first()?;
    match words.split_first() {
        Some((hists, words)) => {
            let start = read_u32(start.as_bytes()).unwrap_or(0);
            Some((start, hists.as_str(), words))
        }
        None => Some((0, "", words)),
    }
}

/// Whether there are at most so many periods, each of which starts after the one before.
fn are_later(room: u32, last: u32, words: &[String]) -> bool
    ensures { result ≡ are_later room last (later_of (map string_bytes words.now)) }
{
    match first_pair(words) {
        Some((start, _, rest)) => room > 0 && last < start && are_later(room - 1, start, rest),
        None => true,
    }
}
