// The top call.
ghost use Rattle.std.specs.Prelude.{ℕ, ◌≡◌, ◌≢◌, ◌+◌, List, Some, Err, IfOk, OnOk};
ghost use Rattle.std.specs.Prelude.{map, string_bytes};
ghost use Rattle.sota_edge.specs.Counts.{Rose};
ghost use Rattle.sota_edge.specs.Desk.{Files};
ghost use Rattle.sota_network.specs.Network.{Net};
ghost use Rattle.sota_polfile.specs.Bracket.{Bracket};
ghost use Rattle.sota_polfile.specs.Table.{Table};
ghost use Rattle.sota_app.specs.Outputs.{Ends, LineEnds};
ghost use Rattle.sota_app.specs.Words.{request_of};
ghost use Rattle.sota_app.specs.Inputs.{NoInputWritten, IsShortTask, task_work};
ghost use Rattle.sota_app.specs.TimedMeaning.{IsTimed, TimedMeant};
ghost use Rattle.sota_app.specs.declared.words.TimedAsk.{TimedAsk};
ghost use Rattle.sota_app.specs.Inputs.{IsWorked, IsIdle, JobHolds};
ghost use Rattle.sota_app.specs.Work.{job_work};
ghost use Rattle.sota_app.specs.Commands.{CommandLine, IsDone, Routed, Allowed};
ghost use Rattle.sota_script.specs.declared.command.Command.TheVariants.{Route, Need};
ghost use Rattle.sota_app.specs.Outcome as outcomes;
ghost use Rattle.sota_app.specs.Outcome.{outcome, refused_words, job_outcome};
ghost use Rattle.sota_app.specs.Causes.{Ended, Delivered, NoFault, status_of};
ghost use Rattle.sota_app.specs.Meaning.{AskLine, IsAnswered, Meant, IsJudged, Attested};
ghost use Rattle.sota_app.specs.Meaning.{IsBracketJudged, Enclosed};
ghost use Rattle.sota_app.specs.Meaning.{IsReplayed, Replayed, IsJob, IsShown, Shown};
ghost use Rattle.sota_script.specs.declared.command.Ask3.{Ask3};
ghost use Rattle.sota_app.specs.declared.words.Trips.{Trips};

use crate::checking::{check_policy, judge_bracket, replay_policy};
use crate::input::NoInput;
use crate::inputs::{Job, Task, load_task};
use crate::laws::{answers_are_meant, requests_have_networks};
use crate::output::write_last;
use crate::player::play_lines;
use crate::showing::show_plan;
use crate::status::Status;
use crate::stop::Stop;
use crate::timing::answer_timed;
use crate::words::read_words;
use sota_check::laws::{
    bracketed_encloses, certified_attains, passed_brackets_hold, passed_policies_hold,
};
use sota_edge::{Desk, Sink, put_all};
use sota_network::Network;
use sota_network::laws::grid_encloses;
use sota_period::laws::timed_grid_encloses;
use sota_quantile::laws::needs_by_trees;
use sota_route::laws::routes_are_enclosed;
use sota_units::Steps;
use std::alloc::Global;
use std::marker::Brand;
use std::sync::ledger::{Blank, Ledger};

/// Refuses words that are no request.
fn refuse_words<O: Sink>(out: &mut O) -> Result<Status, Stop>
    ensures line { LineEnds result refused_words (O.state out.old) (O.state out.new) }
    ensures status { IfOk result (λ status. status ≡ Status.Words) }
    ensures memory { result ≡ Err Stop.NoMemory
        → Rose (O.state out.old).shortages (O.state out.new).shortages }
{
    put_all(out, b"refused words\n")?;
    Ok(Status::Words)
}

/// Writes what is to be written where there is no input, and gives the status of that.
fn refuse_input<O: Sink>(alloc: Global, end: NoInput, out: &mut O) -> Result<Status, Stop>
    ensures { NoInputWritten end result (O.state out.old) (O.state out.new) }
{
    match end {
        NoInput::Fault(fault) => write_last(&fault.line(alloc)?, Status::Input, out),
        NoInput::Unread => Ok(Status::ReadFault),
        NoInput::NoMemory => Ok(Status::NoMemory),
    }
}

/// Does what is to be done. The status is the one of what was written.
fn do_task<D: Desk, O: Sink, P: Ledger>(
    alloc: Global,
    task: Task,
    desk: &mut D,
    out: &mut O,
    pushes: &mut Steps<P>,
) -> Result<Status, Stop>
    requires { IsShortTask task }
    ensures made { Ends result
        (job_outcome (task_work task).net (task_work task).job).outputs
        (D.state desk.old) (D.state desk.new) (O.state out.old) (O.state out.new) }
    ensures status { IfOk result (λ status.
        status ≡ (job_outcome (task_work task).net (task_work task).job).status) }
    ensures holds { IfOk result (λ _. JobHolds (task_work task).net (task_work task).job) }
    ensures count { OnOk result (pushes.new ≡ pushes.old
        + job_work (task_work task).net (task_work task).job) }
{
    match task {
        Task::OnNetwork(network, job) => match job {
            Job::Play(script) => {
                let blank = Blank::new(1);
                play_lines::<D, O, Brand, P>(alloc, network, &script, desk, out, blank, pushes)
            }
            Job::Judge(table) => check_policy(alloc, &network, &table, out),
            Job::JudgeBracket(table) => judge_bracket(alloc, &network, &table, out),
            Job::Replay(table, trips) => replay_policy(alloc, &network, &table, trips, out),
            Job::Show(ask) => {
                let blank = Blank::new(1);
                show_plan::<O, Brand, P>(alloc, network, ask, out, blank, pushes)
            }
        },
        Task::OverPeriods(periods, asked) => {
            let blank = Blank::new(1);
            answer_timed::<O, Brand>(alloc, &periods, &asked, out, blank)
        }
    }
}

/// Does what the words ask for. The status is the one of what was written.
fn serve<D: Desk, O: Sink, P: Ledger>(
    alloc: Global,
    words: &[String],
    desk: &mut D,
    out: &mut O,
    pushes: &mut Steps<P>,
) -> Result<Status, Stop>
    ensures ended { Ended (status_of result) (request_of (map string_bytes words.now))
        (D.state desk.old) (D.state desk.new) (O.state out.old) (O.state out.new) }
    ensures holds { (files : Files) (net : Net) (job : outcomes.Job)
        → (D.state desk.old).holds ≡ Some files
        → IsJob (map string_bytes words.now) files net job
        → IfOk result (λ status. IsWorked status → JobHolds net job) }
    ensures counted { (files : Files) (net : Net) (job : outcomes.Job)
        → (D.state desk.old).holds ≡ Some files
        → IsJob (map string_bytes words.now) files net job
        → IfOk result (λ status. IsWorked status
        → pushes.new ≡ pushes.old + job_work net job) }
    ensures idle { IfOk result (λ status. IsIdle status → pushes.new ≡ pushes.old) }
{
    let Some(request) = read_words(words) else {
        return refuse_words(out);
    };
    match load_task(alloc, &request, desk) {
        Ok(task) => do_task(alloc, task, desk, out, pushes),
        Err(end) => refuse_input(alloc, end, out),
    }
}

/// Reads the words after the program's name and the files that they name, stores the files that
/// lines ask for, and writes the replies.
/// `pushes` counts the entries that planning pushes to its tables, three for each.
pub fn run<D: Desk, O: Sink, P: Ledger>(
    alloc: Global,
    words: &[String],
    desk: &mut D,
    out: &mut O,
    pushes: &mut Steps<P>,
) -> Status
    // Whatever happens, the status has its cause, some first outputs of the outcome are made, and
    // at most the next one is begun.
    ensures ended { Ended result (request_of (map string_bytes words.now))
        (D.state desk.old) (D.state desk.new) (O.state out.old) (O.state out.new) }

    // Where nothing fails, the whole outcome stands.
    ensures exact { (files : Files) → (D.state desk.old).holds ≡ Some files
        → NoFault (D.state desk.old) (D.state desk.new) (O.state out.old) (O.state out.new)
        → result ≢ Status.NoMemory
        → Delivered (outcome (map string_bytes words.now) files) result
        (D.state desk.old) (D.state desk.new) (O.state out.old) (O.state out.new) }

    // And each ask that is answered gets bounds that enclose its greatest on-time probability, on
    // the network of its line.
    ensures meaning { (files : Files) (line : AskLine) → (D.state desk.old).holds ≡ Some files
        → NoFault (D.state desk.old) (D.state desk.new) (O.state out.old) (O.state out.new)
        → result ≢ Status.NoMemory
        → IsAnswered (map string_bytes words.now) files line
        → Meant line (O.state out.old) (O.state out.new) }

    // And where a policy was to be judged and all is done, it holds, and following it attains the
    // probability that was written.
    ensures accepted { (files : Files) (net : Net) (table : Table)
        → (D.state desk.old).holds ≡ Some files → result ≡ Status.Done
        → IsJudged (map string_bytes words.now) files net table
        → Attested net table (O.state out.old) (O.state out.new) }

    // And where a bracket was to be judged and all is done, its bounds enclose the greatest on-time
    // probability, and following it attains the lower one.
    ensures enclosed { (files : Files) (net : Net) (table : Bracket)
        → (D.state desk.old).holds ≡ Some files → result ≡ Status.Done
        → IsBracketJudged (map string_bytes words.now) files net table
        → Enclosed net table (O.state out.old) (O.state out.new) }

    // And where trips were to follow a policy and all is done, it holds, and each of the trips by
    // the words of the seed was counted once.
    ensures replayed { (files : Files) (net : Net) (table : Table) (trips : Trips)
        → (D.state desk.old).holds ≡ Some files → result ≡ Status.Done
        → IsReplayed (map string_bytes words.now) files net table trips
        → Replayed net table trips (O.state out.old) (O.state out.new) }

    // And where the plan of a network that is made is to be shown, its policy is always accepted,
    // with the lower bound of the answer.
    ensures shown { (files : Files) (net : Net) (ask : Ask3) → (D.state desk.old).holds ≡ Some files
        → NoFault (D.state desk.old) (D.state desk.new) (O.state out.old) (O.state out.new)
        → result ≢ Status.NoMemory → IsShown (map string_bytes words.now) files net ask
        → Shown net ask result (O.state out.old) (O.state out.new) }

    // And each route that is enclosed and each need that is answered means what it says of
    // decision trees, on the network of its line.
    ensures routed { (files : Files) (line : CommandLine) (dest budget : ℕ) (arcs : List ℕ)
        → (D.state desk.old).holds ≡ Some files
        → NoFault (D.state desk.old) (D.state desk.new) (O.state out.old) (O.state out.new)
        → result ≢ Status.NoMemory → IsDone (map string_bytes words.now) files line
        → line.command ≡ Route dest budget arcs
        → Routed line dest budget arcs (O.state out.old) (O.state out.new) }
    ensures allowed { (files : Files) (line : CommandLine) (ask : Ask3) (confidence : ℕ)
        → (D.state desk.old).holds ≡ Some files
        → NoFault (D.state desk.old) (D.state desk.new) (O.state out.old) (O.state out.new)
        → result ≢ Status.NoMemory → IsDone (map string_bytes words.now) files line
        → line.command ≡ Need ask confidence
        → Allowed line ask confidence (O.state out.old) (O.state out.new) }

    // And where an ask was planned over periods of the clock and all is done, the bounds that were
    // written enclose its greatest on-time probability there.
    ensures timed { (files : Files) (periods : List (ℕ × Net)) (asked : TimedAsk)
        → (D.state desk.old).holds ≡ Some files → result ≡ Status.Done
        → IsTimed (map string_bytes words.now) files periods asked
        → TimedMeant periods asked (O.state out.old) (O.state out.new) }

    // The pushes are counted exactly where the job is done, and there are none where there is none.
    ensures counted { (files : Files) (net : Net) (job : outcomes.Job)
        → (D.state desk.old).holds ≡ Some files → IsWorked result
        → IsJob (map string_bytes words.now) files net job
        → pushes.new ≡ pushes.old + job_work net job }
    ensures idle { IsIdle result → pushes.new ≡ pushes.old }
{
    requests_have_networks();
    answers_are_meant();
    grid_encloses();
    passed_policies_hold();
    certified_attains();
    passed_brackets_hold();
    bracketed_encloses();
    routes_are_enclosed();
    needs_by_trees();
    timed_grid_encloses();
    match serve(alloc, words, desk, out, pushes) {
        Ok(status) => status,
        Err(Stop::PutFailed | Stop::StoreFailed) => Status::WriteFault,
        Err(Stop::NoMemory) => Status::NoMemory,
    }
}
