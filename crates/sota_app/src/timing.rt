// An ask where travel times depend on the clock.
ghost use Rattle.std.specs.Prelude.{◌≡◌, ◌<◌, ◌≤◌, IfOk};
ghost use Rattle.sota_period.specs.Periods.{ArePeriods};
ghost use Rattle.sota_app.specs.Outputs.{LineEnds};
ghost use Rattle.sota_app.specs.TimedLines.{timed_line, untimed_line, planned, planned_line};
ghost use Rattle.sota_app.specs.TimedLines.{planned_status};

use crate::line::LineOut;
use crate::output::write_last;
use crate::status::Status;
use crate::stop::Stop;
use crate::words::TimedAsk;
use sota_edge::Sink;
use sota_online::BlockSummer;
use sota_period::{Timed, TimedAnswer, TimedFault, plan_timed};
use sota_text::TextOut;
use sota_units::{ArcId, NoMemory, Steps};
use std::alloc::Global;
use std::sync::ledger::{Blank, Ledger};

/// Plans an ask over periods of the clock, and writes the answer, or why it is refused. The
/// products of the planning are counted with the blank's ledger.
pub fn answer_timed<O: Sink, M: Ledger>(
    alloc: Global,
    periods: &Timed,
    asked: &TimedAsk,
    out: &mut O,
    blank: Blank,
) -> Result<Status, Stop>
    requires name { blank.name ≡ M.name }
    requires parts { blank.parts ≡ M.parts }
    requires some { 0 < blank.parts }
    requires begins { asked.now.ask.budget ≤ asked.now.deadline }
    ensures line { LineEnds result (planned_line asked.now (planned periods.now asked.now))
        (O.state out.old) (O.state out.new) }
    ensures status { IfOk result (λ status.
        status ≡ planned_status (planned periods.now asked.now)) }
    ensures valid { ArePeriods periods.now }
{
    // A check knows what holds of all periods once these are read.
    prove!(periods.nodes() >= 1);
    let mut products = Steps::<M>::new(blank);
    let (ask, deadline) = (asked.ask, asked.deadline);
    let (origin, dest, budget) = (ask.origin, ask.dest, ask.budget);
    match plan_timed::<BlockSummer, M>(
        alloc,
        periods,
        origin,
        dest,
        budget,
        deadline,
        &mut products,
    ) {
        Ok(answer) => write_timed(alloc, asked, &answer, out),
        Err(TimedFault::NoMemory) => Err(Stop::NoMemory),
        Err(fault) => refuse_timed(alloc, fault, out),
    }
}

/// Writes the answer.
fn write_timed<O: Sink>(
    alloc: Global,
    asked: &TimedAsk,
    answer: &TimedAnswer,
    out: &mut O,
) -> Result<Status, Stop>
    ensures line { LineEnds result (timed_line asked.now answer.now)
        (O.state out.old) (O.state out.new) }
    ensures status { IfOk result (λ status. status ≡ Status.Done) }
{
    write_last(&timed_text(alloc, asked, answer)?, Status::Done, out)
}

/// Writes why the ask is refused.
fn refuse_timed<O: Sink>(alloc: Global, fault: TimedFault, out: &mut O) -> Result<Status, Stop>
    ensures line { LineEnds result (untimed_line fault) (O.state out.old) (O.state out.new) }
    ensures status { IfOk result (λ status. status ≡ Status.SomeRefused) }
{
    write_last(&untimed_text(alloc, fault)?, Status::SomeRefused, out)
}

/// The line `timed O D T A LOWER UPPER ARC`.
fn timed_text(alloc: Global, asked: &TimedAsk, answer: &TimedAnswer) -> Result<TextOut, NoMemory>
    ensures { IfOk result (λ text. text ≡ timed_line asked.now answer.now) }
{
    let mut line = LineOut::new(alloc, b"timed")?;
    line.number(u64::from(asked.ask.origin))?;
    line.number(u64::from(asked.ask.dest))?;
    line.number(u64::from(asked.ask.budget))?;
    line.number(u64::from(asked.deadline))?;
    line.grain(answer.lower)?;
    line.grain(answer.upper)?;
    line.number_or_dash(answer.next.map(ArcId::get))?;
    line.end()
}

/// The line `refused 1 CAUSE`, with the count of a cause that has one.
fn untimed_text(alloc: Global, fault: TimedFault) -> Result<TextOut, NoMemory>
    ensures { IfOk result (λ text. text ≡ untimed_line fault) }
{
    let mut line = LineOut::new(alloc, b"refused 1")?;
    line.word(fault.word())?;
    line.count(fault.count())?;
    line.end()
}
