// The verdict on a policy, and trips that follow it.
ghost use Rattle.std.specs.Prelude.{◌≡◌, ◌++◌, IfOk, OnOk};
ghost use Rattle.sota_polfile.specs.Bracket.{IsBracket};
ghost use Rattle.sota_check.specs.BracketRejected.{bracket_rejection};
ghost use Rattle.sota_check.specs.Rejected.{rejection};
ghost use Rattle.sota_app.specs.Outputs.{LineEnds};
ghost use Rattle.sota_app.specs.Verdicts.{accepted_line, rejected_line, entry_text};
ghost use Rattle.sota_app.specs.Verdicts.{enclosed_line, bracket_rejected_line};
ghost use Rattle.sota_app.specs.Verdicts.{bracket_verdict_line};
ghost use Rattle.sota_app.specs.Verdicts.{trips_line, verdict_line, replay_line, verdict_status};

use crate::line::LineOut;
use crate::output::write_last;
use crate::status::Status;
use crate::stop::Stop;
use crate::words::Trips;
use sota_check::{BracketRejection, Bracketed, Certified, Rejection, check, check_bracket};
use sota_edge::Sink;
use sota_network::Network;
use sota_polfile::{BracketTable, PolicyTable};
use sota_replay::{Tally, Words, trips};
use sota_text::TextOut;
use sota_units::NoMemory;
use std::alloc::Global;

/// Judges a policy on a network, and writes the verdict.
pub fn check_policy<O: Sink>(
    alloc: Global,
    network: &Network,
    table: &PolicyTable,
    out: &mut O,
) -> Result<Status, Stop>
    ensures line { LineEnds result
        (verdict_line table.now (rejection network.now table.now))
        (O.state out.old) (O.state out.new) }
    ensures status { IfOk result (λ status.
        status ≡ verdict_status (rejection network.now table.now)) }
{
    match check(network, table) {
        Ok(certified) => write_last(&accepted_text(alloc, &certified)?, Status::Done, out),
        Err(cause) => write_last(&rejected_text(alloc, cause)?, Status::SomeRefused, out),
    }
}

/// Judges a bracket on a network, and writes the verdict.
pub fn judge_bracket<O: Sink>(
    alloc: Global,
    network: &Network,
    table: &BracketTable,
    out: &mut O,
) -> Result<Status, Stop>
    ensures line { LineEnds result
        (bracket_verdict_line table.now (bracket_rejection network.now table.now))
        (O.state out.old) (O.state out.new) }
    ensures status { IfOk result (λ status.
        status ≡ verdict_status (bracket_rejection network.now table.now)) }
    ensures valid { IsBracket table.now }
{
    // A check knows what holds of every bracket once this one is read.
    prove!(table.head().nodes >= 1);
    match check_bracket(network, table) {
        Ok(bracketed) => write_last(&enclosed_text(alloc, &bracketed)?, Status::Done, out),
        Err(cause) => write_last(
            &bracket_rejected_text(alloc, cause)?,
            Status::SomeRefused,
            out,
        ),
    }
}

/// Judges a policy on a network, and writes how trips end that follow it. Where it is rejected, the
/// verdict is written and nothing else.
pub fn replay_policy<O: Sink>(
    alloc: Global,
    network: &Network,
    table: &PolicyTable,
    asked: Trips,
    out: &mut O,
) -> Result<Status, Stop>
    ensures line { LineEnds result
        (replay_line network.now table.now asked (rejection network.now table.now))
        (O.state out.old) (O.state out.new) }
    ensures status { IfOk result (λ status.
        status ≡ verdict_status (rejection network.now table.now)) }
{
    match check(network, table) {
        Ok(_) => {
            let mut words = Words::new(u64::from(asked.seed));
            let tally = trips(network, table, &mut words, asked.count);
            write_last(&trips_text(alloc, asked.count, &tally)?, Status::Done, out)
        }
        Err(cause) => write_last(&rejected_text(alloc, cause)?, Status::SomeRefused, out),
    }
}

/// The line `accepted O D T LOWER`.
fn accepted_text(alloc: Global, certified: &Certified) -> Result<TextOut, NoMemory>
    ensures { IfOk result (λ text. text ≡ accepted_line certified.now) }
{
    let mut line = LineOut::new(alloc, b"accepted")?;
    line.number(u64::from(certified.origin.get()))?;
    line.number(u64::from(certified.dest.get()))?;
    line.number(u64::from(certified.budget))?;
    line.grain(certified.lower)?;
    line.end()
}

/// The line `enclosed O D T LOWER UPPER`.
fn enclosed_text(alloc: Global, bracketed: &Bracketed) -> Result<TextOut, NoMemory>
    ensures { IfOk result (λ text. text ≡ enclosed_line bracketed.now) }
{
    let mut line = LineOut::new(alloc, b"enclosed")?;
    line.number(u64::from(bracketed.origin.get()))?;
    line.number(u64::from(bracketed.dest.get()))?;
    line.number(u64::from(bracketed.budget))?;
    line.grain(bracketed.lower)?;
    line.grain(bracketed.upper)?;
    line.end()
}

/// The line `rejected CAUSE`, with the node and the budget where the cause has them.
fn bracket_rejected_text(alloc: Global, cause: BracketRejection) -> Result<TextOut, NoMemory>
    ensures { IfOk result (λ text. text ≡ bracket_rejected_line cause) }
{
    let mut line = LineOut::new(alloc, b"rejected")?;
    line.word(cause.word())?;
    line.count(cause.node().map(u64::from))?;
    line.count(cause.budget().map(u64::from))?;
    line.end()
}

/// The line `rejected CAUSE`, with the node and the budget of a cause that has them.
fn rejected_text(alloc: Global, cause: Rejection) -> Result<TextOut, NoMemory>
    ensures { IfOk result (λ text. text ≡ rejected_line cause) }
{
    let mut line = LineOut::new(alloc, b"rejected")?;
    line.word(cause.word())?;
    push_entry(&mut line, cause.entry())?;
    line.end()
}

/// Appends a node and a budget, where there are any.
fn push_entry(line: &mut LineOut, entry: Option<(u32, u32)>) -> Result<(), NoMemory>
    ensures { OnOk result (line.new ≡ line.old ++ entry_text entry) }
{
    if let Some((node, budget)) = entry {
        line.number(u64::from(node))?;
        line.number(u64::from(budget))?;
    }
    Ok(())
}

/// The line `trips N arrived A late B stuck C lost E`.
fn trips_text(alloc: Global, count: u32, tally: &Tally) -> Result<TextOut, NoMemory>
    ensures { IfOk result (λ text. text ≡ trips_line count tally.now) }
{
    let mut line = LineOut::new(alloc, b"trips")?;
    line.number(u64::from(count))?;
    line.word(b"arrived")?;
    line.number(u64::from(tally.arrived))?;
    line.word(b"late")?;
    line.number(u64::from(tally.late))?;
    line.word(b"stuck")?;
    line.number(u64::from(tally.stuck))?;
    line.word(b"lost")?;
    line.number(u64::from(tally.lost))?;
    line.end()
}
