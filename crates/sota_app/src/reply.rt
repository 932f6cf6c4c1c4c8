// Replies to lines, and their texts.
ghost use Rattle.std.specs.Prelude.{◌≡◌, IfOk, option_map};
ghost use Rattle.sota_app.specs.Replies.{is_shortage, refusal_word, refusal_count};
ghost use Rattle.sota_app.specs.Replies.{answer_line, edited_line};
ghost use Rattle.sota_app.specs.Replies.{closed_line, stored_line, route_line, refused_line};
ghost use Rattle.sota_app.specs.Replies.{allowance_line};
ghost use Rattle.sota_app.specs.Replies.{reply_line, report_of, reply_file, is_refusal};
ghost use Rattle.sota_app.specs.declared.reply.Refusal.TheVariants as refusals;
ghost use Rattle.sota_app.specs.declared.reply.Reply.TheVariants.{Answered, Routed, Allowed};

use crate::line::LineOut;
use sota_hist::HistFault;
use sota_quantile::Need;
use sota_report::{Reply as Report, ResolveFault, Text};
use sota_route::{RouteAnswer, RouteFault};
use sota_script::{FileName, LineFault};
use sota_session::{Answer, Ask, AskFault, EditFault};
use sota_text::TextOut;
use sota_units::{ArcId, Grain, Items, NoMemory, NodeId};
use std::alloc::Global;

/// A file that is to be stored.
#[derive(Drop)]
pub struct NamedFile {
    pub name: FileName,
    pub bytes: Items<u8>,
}

/// Two bounds of the chance of a route to a destination within a budget, and its number of arcs.
#[derive(Clone, Copy, Debug, PartialEq, Eq)]
pub struct RouteReply {
    pub dest: NodeId,
    pub budget: u32,
    pub answer: RouteAnswer,
    pub arcs: u64,
}

/// The time that one must allow to keep an ask with a confidence, of at most its budget.
#[derive(Clone, Copy, Debug, PartialEq, Eq)]
pub struct Allowance {
    pub ask: Ask,
    pub confidence: Grain,
    pub need: Need,
}

/// The reply to a line.
#[derive(Drop)]
pub enum Reply {
    /// An ask was answered.
    Answered(Ask, Answer),
    /// The time of this arc was replaced.
    Edited(ArcId),
    /// This arc was closed.
    Closed(ArcId),
    /// This file was stored.
    Stored(NamedFile),
    /// The chance of a route was enclosed.
    Routed(RouteReply),
    /// The least budgets for a confidence were found.
    Allowed(Allowance),
    /// The line of this number was refused.
    Refused(u32, Refusal),
}

/// Why a line is refused.
#[derive(Clone, Copy, Debug, PartialEq, Eq)]
pub enum Refusal {
    /// The line is no command.
    Line(LineFault),
    /// The pairs of an edit give no histogram.
    Time(HistFault),
    /// The arc of an edit is not there.
    Edit(EditFault),
    /// The ask, or the need, has this fault.
    Ask(AskFault),
    /// The route has this fault.
    Route(RouteFault),
    /// A name of a place is not there.
    Name(ResolveFault),
}

impl From<LineFault> for Refusal {
    ghost from_gives = { λ fault refusal. refusal ≡ refusals.Line fault };

    fn from(fault: LineFault) -> Self {
        Refusal::Line(fault)
    }
}

impl From<HistFault> for Refusal {
    ghost from_gives = { λ fault refusal. refusal ≡ refusals.Time fault };

    fn from(fault: HistFault) -> Self {
        Refusal::Time(fault)
    }
}

impl From<EditFault> for Refusal {
    ghost from_gives = { λ fault refusal. refusal ≡ refusals.Edit fault };

    fn from(fault: EditFault) -> Self {
        Refusal::Edit(fault)
    }
}

impl From<AskFault> for Refusal {
    ghost from_gives = { λ fault refusal. refusal ≡ refusals.Ask fault };

    fn from(fault: AskFault) -> Self {
        Refusal::Ask(fault)
    }
}

impl From<RouteFault> for Refusal {
    ghost from_gives = { λ fault refusal. refusal ≡ refusals.Route fault };

    fn from(fault: RouteFault) -> Self {
        Refusal::Route(fault)
    }
}

impl From<ResolveFault> for Refusal {
    ghost from_gives = { λ fault refusal. refusal ≡ refusals.Name fault };

    fn from(fault: ResolveFault) -> Self {
        Refusal::Name(fault)
    }
}

impl Refusal {
    /// Whether memory was wanted. Such a line is not refused: it gets no reply.
    pub fn is_shortage(&self) -> bool
        ensures { result ≡ is_shortage self.now }
    {
        matches!(
            self,
            Refusal::Line(LineFault::NoMemory)
                | Refusal::Time(HistFault::NoMemory)
                | Refusal::Edit(EditFault::NoMemory)
                | Refusal::Ask(AskFault::NoMemory)
                | Refusal::Route(RouteFault::NoMemory)
                | Refusal::Name(ResolveFault::NoMemory)
        )
    }

    /// Its name.
    fn word(&self) -> &'static [u8]
        ensures { result.now ≡ refusal_word self.now }
    {
        match self {
            Refusal::Line(fault) => fault.word(),
            Refusal::Time(fault) => fault.word(),
            Refusal::Edit(fault) => fault.word(),
            Refusal::Ask(fault) => fault.word(),
            Refusal::Route(fault) => fault.word(),
            Refusal::Name(fault) => fault.word(),
        }
    }

    /// Its name as a text.
    fn cause(&self, alloc: Global) -> Result<Text, NoMemory>
        ensures { IfOk result (λ text. text ≡ refusal_word self.now) }
    {
        Text::of_word(alloc, self.word())
    }

    /// The count or the place that is written with it, where it is one of those that have one.
    fn count(&self) -> Option<u64>
        ensures { result ≡ refusal_count self.now }
    {
        match self {
            Refusal::Ask(fault) => fault.count(),
            Refusal::Route(fault) => fault.number(),
            Refusal::Line(_) | Refusal::Time(_) | Refusal::Edit(_) | Refusal::Name(_) => None,
        }
    }
}

/// The line `answer O D T LOWER UPPER ARC`.
pub fn write_answer(alloc: Global, ask: &Ask, answer: &Answer) -> Result<TextOut, NoMemory>
    ensures { IfOk result (λ text. text ≡ answer_line ask.now answer.now) }
{
    let mut line = LineOut::new(alloc, b"answer")?;
    line.number(u64::from(ask.origin.get()))?;
    line.number(u64::from(ask.dest.get()))?;
    line.number(u64::from(ask.budget))?;
    line.grain(answer.lower)?;
    line.grain(answer.upper)?;
    line.number_or_dash(answer.next.map(ArcId::get))?;
    line.end()
}

/// The line `edited ARC`.
fn write_edited(alloc: Global, arc: ArcId) -> Result<TextOut, NoMemory>
    ensures { IfOk result (λ text. text ≡ edited_line arc) }
{
    let mut line = LineOut::new(alloc, b"edited")?;
    line.number(u64::from(arc.get()))?;
    line.end()
}

/// The line `closed ARC`.
fn write_closed(alloc: Global, arc: ArcId) -> Result<TextOut, NoMemory>
    ensures { IfOk result (λ text. text ≡ closed_line arc) }
{
    let mut line = LineOut::new(alloc, b"closed")?;
    line.number(u64::from(arc.get()))?;
    line.end()
}

/// The line `stored NAME`.
fn write_stored(alloc: Global, name: &str) -> Result<TextOut, NoMemory>
    ensures { IfOk result (λ text. text ≡ stored_line name.now) }
{
    let mut line = LineOut::new(alloc, b"stored")?;
    line.word(name.as_bytes())?;
    line.end()
}

/// The line `route D T LOWER UPPER K`.
fn write_route(alloc: Global, route: &RouteReply) -> Result<TextOut, NoMemory>
    ensures { IfOk result (λ text. text ≡ route_line route.now) }
{
    let mut line = LineOut::new(alloc, b"route")?;
    line.number(u64::from(route.dest.get()))?;
    line.number(u64::from(route.budget))?;
    line.grain(route.answer.lower)?;
    line.grain(route.answer.upper)?;
    line.number(route.arcs)?;
    line.end()
}

/// The line `need O D CONF TMAX EARLY SURE`.
fn write_allowance(alloc: Global, allowance: &Allowance) -> Result<TextOut, NoMemory>
    ensures { IfOk result (λ text. text ≡ allowance_line allowance.now) }
{
    let mut line = LineOut::new(alloc, b"need")?;
    line.number(u64::from(allowance.ask.origin.get()))?;
    line.number(u64::from(allowance.ask.dest.get()))?;
    line.grain(allowance.confidence)?;
    line.number(u64::from(allowance.ask.budget))?;
    line.number_or_dash(allowance.need.early)?;
    line.number_or_dash(allowance.need.sure)?;
    line.end()
}

/// The line `refused LINE CAUSE`, with the count of a cause that has one.
fn write_refused(alloc: Global, number: u32, refusal: &Refusal) -> Result<TextOut, NoMemory>
    ensures { IfOk result (λ text. text ≡ refused_line number refusal.now) }
{
    let mut line = LineOut::new(alloc, b"refused")?;
    line.number(u64::from(number))?;
    line.word(refusal.word())?;
    line.count(refusal.count())?;
    line.end()
}

/// An answer, as its numbers.
fn report_answer(ask: &Ask, answer: &Answer) -> Report
    ensures { result ≡ report_of (Answered ask.now answer.now) }
{
    Report::Answer {
        origin: ask.origin.get(),
        dest: ask.dest.get(),
        budget: ask.budget,
        lower: answer.lower,
        upper: answer.upper,
        arc: answer.next.map(ArcId::get),
    }
}

/// The bounds of a route, as its numbers.
fn report_route(route: &RouteReply) -> Report
    ensures { result ≡ report_of (Routed route.now) }
{
    Report::Route {
        dest: route.dest.get(),
        budget: route.budget,
        lower: route.answer.lower,
        upper: route.answer.upper,
        arcs: route.arcs,
    }
}

/// The time that one must allow, as its numbers.
fn report_allowance(allowance: &Allowance) -> Report
    ensures { result ≡ report_of (Allowed allowance.now) }
{
    Report::Need {
        origin: allowance.ask.origin.get(),
        dest: allowance.ask.dest.get(),
        confidence: allowance.confidence,
        most: allowance.ask.budget,
        early: allowance.need.early,
        sure: allowance.need.sure,
    }
}

impl Reply {
    /// Its line.
    pub fn line(&self, alloc: Global) -> Result<TextOut, NoMemory>
        ensures { IfOk result (λ text. text ≡ reply_line self.now) }
    {
        match self {
            Reply::Answered(ask, answer) => write_answer(alloc, ask, answer),
            Reply::Edited(arc) => write_edited(alloc, *arc),
            Reply::Closed(arc) => write_closed(alloc, *arc),
            Reply::Stored(file) => write_stored(alloc, file.name.as_str()),
            Reply::Routed(route) => write_route(alloc, route),
            Reply::Allowed(allowance) => write_allowance(alloc, allowance),
            Reply::Refused(line, refusal) => write_refused(alloc, *line, refusal),
        }
    }

    /// Its numbers and texts.
    pub fn report(&self, alloc: Global) -> Result<Report, NoMemory>
        ensures { IfOk result (λ report. report ≡ report_of self.now) }
    {
        match self {
            Reply::Answered(ask, answer) => Ok(report_answer(ask, answer)),
            Reply::Edited(arc) => Ok(Report::Edited(arc.get())),
            Reply::Closed(arc) => Ok(Report::Closed(arc.get())),
            Reply::Stored(file) => Ok(Report::Stored(Text::copied(alloc, file.name.as_str())?)),
            Reply::Routed(route) => Ok(report_route(route)),
            Reply::Allowed(allowance) => Ok(report_allowance(allowance)),
            Reply::Refused(line, refusal) => Ok(Report::Refused {
                line: *line,
                cause: refusal.cause(alloc)?,
                count: refusal.count(),
            }),
        }
    }

    /// The file that is to be stored before its line is written.
    pub fn file(&self) -> Option<&NamedFile>
        ensures { option_map (λ file. file.now) result ≡ reply_file self.now }
    {
        match self {
            Reply::Stored(file) => Some(file),
            Reply::Answered(_, _) | Reply::Edited(_) | Reply::Closed(_) => None,
            Reply::Routed(_) | Reply::Allowed(_) | Reply::Refused(_, _) => None,
        }
    }

    /// Whether it refuses a line.
    pub fn is_refusal(&self) -> bool
        ensures { result ≡ is_refusal self.now }
    {
        matches!(self, Reply::Refused(_, _))
    }
}
