// The inputs of a request, each loaded and read before the next.
ghost use Rattle.std.specs.Prelude.{◌≡◌, ◌≤◌, true, length, Ok, IfOk};
ghost use Rattle.sota_make.specs.Made.{is_size};
ghost use Rattle.sota_dimacs.specs.Graph.{IsGraph};
ghost use Rattle.sota_units.specs.Limits.{TEXT_LIMIT};
ghost use Rattle.sota_polfile.specs.Limits.{POLICY_LIMIT};
ghost use Rattle.sota_app.specs.InputFaults.{input_limit};
ghost use Rattle.sota_app.specs.Outcome.{input_bytes, read_graph, graph_named};
ghost use Rattle.sota_app.specs.Outcome.{certain_hists, read_hists, with_hists, network_of};
ghost use Rattle.sota_app.specs.Outcome.{read_table, table_named, read_any_table, any_table_named};
ghost use Rattle.sota_app.specs.Outcome.{judge_any, read_names, names_of, work_of};
ghost use Rattle.sota_app.specs.Causes.{Unread, UnreadHists, UnreadNetwork, UnreadReport};
ghost use Rattle.sota_app.specs.Causes.{UnreadInput};
ghost use Rattle.sota_app.specs.declared.words.Request.TheVariants.{Report};
ghost use Rattle.sota_app.specs.Words.{IsSized};
ghost use Rattle.sota_app.specs.Shown.{net_made};
ghost use Rattle.sota_app.specs.Inputs.{TextAnswers, InputAnswers, task_work, job_of, IsShortJob};
ghost use Rattle.sota_app.specs.Inputs.{IsShortTask, HasRoads};
ghost use Rattle.sota_app.specs.declared.voice.Voice.TheVariants.{Plain};

use crate::input::{Input, InputFault, NoInput};
use crate::periods::load_timed;
use crate::voice::Voice;
use crate::words::{MakeWords, ReportWords, Request, TimedAsk, Trips};
use sota_dimacs::{GraphFault, RawGraph, read_graph};
use sota_edge::{Desk, LoadError};
use sota_histcsv::laws::accepted_texts;
use sota_histcsv::{HistFileFault, certain_network, read_histograms};
use sota_make::{MakeFault, make_network};
use sota_network::Network;
use sota_period::Timed;
use sota_polfile::{AnyTable, BracketTable, PolicyFault, PolicyTable, read_any, read_policy};
use sota_report::{Names, NamesFault};
use sota_script::Ask3;
use std::alloc::Global;

/// What is to be done, and on what.
#[derive(Drop)]
pub enum Task {
    /// This is to be done on a network.
    OnNetwork(Network, Job),
    /// This is to be planned over periods of the clock.
    OverPeriods(Timed, TimedAsk),
}

/// What is to be done on a network.
#[derive(Drop)]
pub enum Job {
    /// Lines are to be played.
    Play(Script),
    /// A policy is to be judged.
    Judge(PolicyTable),
    /// A bracket is to be judged.
    JudgeBracket(BracketTable),
    /// Trips are to follow a policy.
    Replay(PolicyTable, Trips),
    /// An ask is to be planned, and its policy judged.
    Show(Ask3),
}

/// Lines that are to be played, and how their replies are spelled.
#[derive(Drop)]
pub struct Script {
    pub voice: Voice,
    pub source: Source,
}

/// Where lines stand that are to be played.
#[derive(Drop)]
pub enum Source {
    /// One line with this ask.
    Ask(Ask3),
    /// The lines of this text.
    Text(Vec<u8>),
}

/// The bytes of the input of this name, at most its limit.
fn load_input<D: Desk>(
    alloc: Global,
    input: Input,
    name: &str,
    desk: &mut D,
) -> Result<Vec<u8>, NoInput>
    ensures read { InputAnswers (λ bytes. bytes.items) result
        (λ files. input_bytes input (files name.now))
        (Unread name.now) (D.state desk.old) (D.state desk.new) }
    ensures within { IfOk result (λ bytes. length bytes.items ≤ input_limit input) }
{
    match desk.load(alloc, name, input.limit()) {
        Ok(bytes) => Ok(bytes),
        Err(LoadError::TooLong) => Err(NoInput::Fault(InputFault::TooLong(input))),
        Err(LoadError::Missing) => Err(NoInput::Unread),
        Err(LoadError::Failed) => Err(NoInput::Unread),
        Err(LoadError::NoMemory) => Err(NoInput::NoMemory),
    }
}

/// The graph that a text means.
fn parse_graph(alloc: Global, bytes: &[u8]) -> Result<RawGraph, NoInput>
    requires { length bytes.now ≤ TEXT_LIMIT }
    ensures read { TextAnswers result (read_graph bytes.now) }
    ensures valid { IfOk result (λ graph. IsGraph graph) }
{
    match read_graph(alloc, bytes) {
        Ok(graph) => Ok(graph),
        Err(GraphFault::NoMemory) => Err(NoInput::NoMemory),
        Err(fault) => Err(NoInput::Fault(InputFault::Graph(fault))),
    }
}

/// The graph that the file of this name holds.
pub fn load_graph<D: Desk>(alloc: Global, name: &str, desk: &mut D) -> Result<RawGraph, NoInput>
    ensures read { InputAnswers (λ graph. graph) result (graph_named name.now) (Unread name.now)
        (D.state desk.old) (D.state desk.new) }
    ensures valid { IfOk result (λ graph. IsGraph graph) }
{
    let bytes = load_input(alloc, Input::Graph, name, desk)?;
    parse_graph(alloc, &bytes)
}

/// The network in which each arc takes its weight.
fn take_weights(alloc: Global, graph: RawGraph) -> Result<Network, NoInput>
    requires { IsGraph graph }
    ensures read { TextAnswers result (certain_hists graph) }
    ensures roads { IfOk result (λ network. HasRoads graph network) }
{
    match certain_network(alloc, graph) {
        Ok(network) => Ok(network),
        Err(HistFileFault::NoMemory) => Err(NoInput::NoMemory),
        Err(fault) => Err(NoInput::Fault(InputFault::Hists(fault))),
    }
}

/// The network of a graph and of the text of its histograms.
fn parse_hists(alloc: Global, bytes: Vec<u8>, graph: RawGraph) -> Result<Network, NoInput>
    requires size { length bytes.items ≤ TEXT_LIMIT }
    requires graph { IsGraph graph }
    ensures read { TextAnswers result (read_hists graph bytes.items) }
    ensures roads { IfOk result (λ network. HasRoads graph network) }
{
    accepted_texts();
    match read_histograms(alloc, bytes, graph) {
        Ok(network) => Ok(network),
        Err(HistFileFault::NoMemory) => Err(NoInput::NoMemory),
        Err(fault) => Err(NoInput::Fault(InputFault::Hists(fault))),
    }
}

/// The network of a graph and of a word for its histograms.
pub fn load_hists<D: Desk>(
    alloc: Global,
    name: &str,
    graph: RawGraph,
    desk: &mut D,
) -> Result<Network, NoInput>
    requires { IsGraph graph }
    ensures read { InputAnswers (λ network. network) result
        (λ files. with_hists name.now files graph)
        (UnreadHists name.now) (D.state desk.old) (D.state desk.new) }
    ensures roads { IfOk result (λ network. HasRoads graph network) }
{
    if name == "-" {
        return take_weights(alloc, graph);
    }
    let bytes = load_input(alloc, Input::Hists, name, desk)?;
    parse_hists(alloc, bytes, graph)
}

/// The network of the graph in the file of this name and of a word for its histograms.
fn load_network<D: Desk>(
    alloc: Global,
    graph: &str,
    hists: &str,
    desk: &mut D,
) -> Result<Network, NoInput>
    ensures { InputAnswers (λ network. network) result (network_of graph.now hists.now)
        (UnreadNetwork graph.now hists.now) (D.state desk.old) (D.state desk.new) }
{
    let roads = load_graph(alloc, graph, desk)?;
    load_hists(alloc, hists, roads, desk)
}

/// The table of the bytes of a file of either version.
fn parse_any(alloc: Global, bytes: &[u8]) -> Result<AnyTable, NoInput>
    requires { length bytes.now ≤ POLICY_LIMIT }
    ensures { TextAnswers result (read_any_table bytes.now) }
{
    match read_any(alloc, bytes) {
        Ok(table) => Ok(table),
        Err(PolicyFault::NoMemory) => Err(NoInput::NoMemory),
        Err(fault) => Err(NoInput::Fault(InputFault::Policy(fault))),
    }
}

/// The table of either version that the file of this name holds.
fn load_any<D: Desk>(alloc: Global, name: &str, desk: &mut D) -> Result<AnyTable, NoInput>
    ensures { InputAnswers (λ table. table) result (any_table_named name.now) (Unread name.now)
        (D.state desk.old) (D.state desk.new) }
{
    let bytes = load_input(alloc, Input::Policy, name, desk)?;
    parse_any(alloc, &bytes)
}

/// A table of either version is to be judged.
fn judge(table: AnyTable) -> Job
    ensures job { job_of result ≡ judge_any table }
    ensures short { IsShortJob result }
{
    match table {
        AnyTable::One(table) => Job::Judge(table),
        AnyTable::Two(table) => Job::JudgeBracket(table),
    }
}

/// The policy of the bytes of a file of version 1.
fn parse_policy(alloc: Global, bytes: &[u8]) -> Result<PolicyTable, NoInput>
    requires { length bytes.now ≤ POLICY_LIMIT }
    ensures { TextAnswers result (read_table bytes.now) }
{
    match read_policy(alloc, bytes) {
        Ok(table) => Ok(table),
        Err(PolicyFault::NoMemory) => Err(NoInput::NoMemory),
        Err(fault) => Err(NoInput::Fault(InputFault::Policy(fault))),
    }
}

/// The policy of version 1 that the file of this name holds.
fn load_policy<D: Desk>(alloc: Global, name: &str, desk: &mut D) -> Result<PolicyTable, NoInput>
    ensures { InputAnswers (λ table. table) result (table_named name.now) (Unread name.now)
        (D.state desk.old) (D.state desk.new) }
{
    let bytes = load_input(alloc, Input::Policy, name, desk)?;
    parse_policy(alloc, &bytes)
}

/// The network that is made of the numbers of a request.
fn make(alloc: Global, words: &MakeWords) -> Result<Network, NoInput>
    requires { is_size words.now.nodes words.now.arcs words.now.span ≡ true }
    ensures { TextAnswers result (Ok (net_made words.now)) }
{
    match make_network(
        alloc,
        u64::from(words.seed),
        words.nodes,
        words.arcs,
        words.span,
    ) {
        Ok(network) => Ok(network),
        Err(MakeFault::NoMemory) => Err(NoInput::NoMemory),
        Err(MakeFault::Size) => unreachable!(),
    }
}

/// The names of the bytes of a file, for a network with so many nodes.
fn parse_names(alloc: Global, bytes: &[u8], network: &Network) -> Result<Names, NoInput>
    requires { length bytes.now ≤ TEXT_LIMIT }
    ensures { TextAnswers result (read_names network.now bytes.now) }
{
    match Names::read(alloc, bytes, network.nodes()) {
        Ok(names) => Ok(names),
        Err(NamesFault::NoMemory) => Err(NoInput::NoMemory),
        Err(fault) => Err(NoInput::Fault(InputFault::Names(fault))),
    }
}

/// The names of places that the file of this name holds, for a network.
fn load_names<D: Desk>(
    alloc: Global,
    name: &str,
    network: &Network,
    desk: &mut D,
) -> Result<Names, NoInput>
    ensures { InputAnswers (λ names. names) result (λ files. names_of name.now files network.now)
        (Unread name.now) (D.state desk.old) (D.state desk.new) }
{
    let bytes = load_input(alloc, Input::Names, name, desk)?;
    parse_names(alloc, &bytes, network)
}

/// The network, and the lines of the script with names of places, that are to be played.
fn load_report<D: Desk>(
    alloc: Global,
    words: &ReportWords<'_>,
    desk: &mut D,
) -> Result<Task, NoInput>
    ensures read { InputAnswers task_work result (work_of (Report words.now))
        (UnreadReport words.now) (D.state desk.old) (D.state desk.new) }
    ensures short { IfOk result (λ task. IsShortTask task) }
{
    let network = load_network(alloc, words.graph, words.hists, desk)?;
    let names = load_names(alloc, words.names, &network, desk)?;
    let text = load_input(alloc, Input::Script, words.script, desk)?;
    let job = Job::Play(Script {
        voice: Voice::Json(names),
        source: Source::Text(text),
    });
    Ok(Task::OnNetwork(network, job))
}

/// The lines of a source, with plain replies.
fn plain(source: Source) -> Script
    ensures { result ≡ record { voice = Plain; source = source } }
{
    Script {
        voice: Voice::Plain,
        source,
    }
}

/// The network of the files that a request names, or that is made of its numbers, and what is to be
/// done on it.
pub fn load_task<D: Desk>(
    alloc: Global,
    request: &Request<'_>,
    desk: &mut D,
) -> Result<Task, NoInput>
    requires { IsSized request.now }
    ensures read { InputAnswers task_work result (work_of request.now) (UnreadInput request.now)
        (D.state desk.old) (D.state desk.new) }
    ensures short { IfOk result (λ task. IsShortTask task) }
{
    match request {
        Request::Ask(words) => {
            let network = load_network(alloc, words.graph, words.hists, desk)?;
            let job = Job::Play(plain(Source::Ask(words.ask)));
            Ok(Task::OnNetwork(network, job))
        }
        Request::Run(words) => {
            let network = load_network(alloc, words.graph, words.hists, desk)?;
            let text = load_input(alloc, Input::Script, words.file, desk)?;
            let job = Job::Play(plain(Source::Text(text)));
            Ok(Task::OnNetwork(network, job))
        }
        Request::Check(words) => {
            let network = load_network(alloc, words.graph, words.hists, desk)?;
            let job = judge(load_any(alloc, words.file, desk)?);
            Ok(Task::OnNetwork(network, job))
        }
        Request::Replay(words) => {
            let names = &words.names;
            let network = load_network(alloc, names.graph, names.hists, desk)?;
            let job = Job::Replay(load_policy(alloc, names.file, desk)?, words.trips);
            Ok(Task::OnNetwork(network, job))
        }
        Request::Report(words) => load_report(alloc, words, desk),
        Request::Timed(words) => {
            let periods = load_timed(alloc, words, desk)?;
            Ok(Task::OverPeriods(periods, words.asked))
        }
        Request::Make(words) => {
            let network = make(alloc, words)?;
            let job = Job::Show(words.ask());
            Ok(Task::OnNetwork(network, job))
        }
    }
}
