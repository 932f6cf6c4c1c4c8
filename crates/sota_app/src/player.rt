// Lines that are played: each is done and replied to before the next.
ghost use Rattle.std.specs.Prelude.{◌≡◌, ◌≤◌, ◌<◌, ◌+◌, ◌*◌, ◌^◌, ◌∷◌, [], length};
ghost use Rattle.std.specs.Prelude.{false, IfOk, IfErr, OnOk, OnErr, Some};
ghost use Rattle.sota_units.specs.Limits.{TEXT_LIMIT};
ghost use Rattle.sota_units.specs.Memory.{AnswersBy, Unless};
ghost use Rattle.sota_network.specs.Region.{table_cells};
ghost use Rattle.sota_kept.specs.States.{first_state};
ghost use Rattle.sota_script.specs.Few.{HasFewPairs};
ghost use Rattle.sota_script.specs.declared.command.Command.TheVariants.{Edit, Close, Route};
ghost use Rattle.sota_script.specs.declared.command.Command.TheVariants.{Need};
ghost use Rattle.sota_app.specs.Outputs.{Ends};
ghost use Rattle.sota_app.specs.Replies.{is_shortage, outputs_of, lines_status, replies_status};
ghost use Rattle.sota_app.specs.Script.{session_ask, command_result, result_step, step};
ghost use Rattle.sota_app.specs.Script.{script_line, ask_on, script_lines, replies_to};
ghost use Rattle.sota_session.specs.State.{kept_state};
ghost use Rattle.sota_app.specs.Inputs.{lines_of, IsShort};
ghost use Rattle.sota_app.specs.Work.{IsSpent, command_effort, no_effort, result_effort};
ghost use Rattle.sota_app.specs.Work.{line_effort, work};
ghost use Rattle.sota_app.specs.declared.reply.Reply.TheVariants.{Refused, Stored};

use crate::inputs::{Script, Source};
use crate::output::make_reply;
use crate::reply::{Allowance, NamedFile, Refusal, Reply, RouteReply};
use crate::status::Status;
use crate::stop::Stop;
use crate::voice::Voice;
use sota_edge::{Desk, Sink};
use sota_hist::Histogram;
use sota_network::Network;
use sota_polfile::{write_bracket, write_policy};
use sota_quantile::least_budgets;
use sota_route::route_bracket;
use sota_script::{Ask3, Command, FileName};
use sota_session::{Ask, AskFault, Session};
use sota_text::Lines;
use sota_units::{ArcId, Grain, Items, Mass, NoMemory, NodeId, Steps, Tick};
use std::alloc::Global;
use std::sync::ledger::{Blank, Ledger};

/// Plays lines on the network of a session, stores files on a desk and writes replies to a sink.
#[derive(Drop)]
struct Player<'s, 'd, 'o, 'm, 'p, D: Desk, O: Sink, M: Ledger, P: Ledger> {
    alloc: Global,
    session: &'s mut Session,
    desk: &'d mut D,
    out: &'o mut O,
    products: &'m mut Steps<M>,
    pushes: &'p mut Steps<P>,
}

/// The ask of these numbers.
pub fn session_ask(ask: Ask3) -> Ask
    ensures { result ≡ session_ask ask }
{
    Ask {
        origin: NodeId(ask.origin),
        dest: NodeId(ask.dest),
        budget: ask.budget,
    }
}

/// The reply to a refused line of this number. A line for which memory was wanted gets none.
pub fn refuse(number: u32, refusal: Refusal) -> Result<Reply, NoMemory>
    ensures { IfOk result (λ reply.
        (is_shortage refusal ≡ false) × (reply ≡ Refused number refusal)) }
{
    if refusal.is_shortage() {
        Err(NoMemory)
    } else {
        Ok(Reply::Refused(number, refusal))
    }
}

/// The reply to a line that stores these bytes under a name.
fn store(name: FileName, bytes: Vec<u8>) -> Reply
    ensures { result ≡ Stored (record { name = name; bytes = bytes.items }) }
{
    Reply::Stored(NamedFile {
        name,
        bytes: Items::new(bytes),
    })
}

/// The status of lines that were all replied to.
fn lines_status(refused: bool) -> Status
    ensures { result ≡ lines_status refused }
{
    if refused {
        Status::SomeRefused
    } else {
        Status::Done
    }
}

impl<D: Desk, O: Sink, M: Ledger, P: Ledger> Player<'_, '_, '_, '_, '_, D, O, M, P> {
    /// Replaces the time of an arc by the one of these pairs. Where no pair has a positive mass it
    /// closes the arc.
    fn edit(&mut self, arc: ArcId, pairs: &Items<(Tick, Mass)>) -> Result<Reply, Refusal>
        requires { length pairs.now < 2 ^ 32 }
        ensures reply { AnswersBy is_shortage
            (λ reply. record { reply = reply; next = self.new.session.now.network })
            result (command_result self.old.session.now.network (Edit arc pairs.now)) }
        ensures kept { OnErr result
            (self.new.session.now.network ≡ self.old.session.now.network) }
        ensures effort { OnOk result (IsSpent
            (command_effort self.old.session.now.network (Edit arc pairs.now)
            (kept_state self.old.session.now))
            self.old.pushes.now self.new.pushes.now (kept_state self.new.session.now)) }
        ensures unchanged { OnErr result (self.new.session.now ≡ self.old.session.now) }
        ensures desk { self.new.desk ≡ self.old.desk }
        ensures sink { self.new.out ≡ self.old.out }
        ensures pushes { self.new.pushes ≡ self.old.pushes }
    {
        let scale = self.session.network().scale();
        let time = Histogram::at_most(self.alloc, scale, pairs.as_slice())?;
        self.session.edit(arc, time)?;
        Ok(Reply::Edited(arc))
    }

    /// Closes an arc.
    fn close(&mut self, arc: ArcId) -> Result<Reply, Refusal>
        ensures reply { AnswersBy is_shortage
            (λ reply. record { reply = reply; next = self.new.session.now.network })
            result (command_result self.old.session.now.network (Close arc)) }
        ensures kept { OnErr result
            (self.new.session.now.network ≡ self.old.session.now.network) }
        ensures effort { OnOk result (IsSpent
            (command_effort self.old.session.now.network (Close arc)
            (kept_state self.old.session.now))
            self.old.pushes.now self.new.pushes.now (kept_state self.new.session.now)) }
        ensures unchanged { OnErr result (self.new.session.now ≡ self.old.session.now) }
        ensures desk { self.new.desk ≡ self.old.desk }
        ensures sink { self.new.out ≡ self.old.out }
        ensures pushes { self.new.pushes ≡ self.old.pushes }
    {
        self.session.edit(arc, Histogram::closed())?;
        Ok(Reply::Closed(arc))
    }

    /// Encloses the chance of a route.
    fn route(&self, dest: NodeId, budget: u32, arcs: &[ArcId]) -> Result<Reply, Refusal>
        ensures { AnswersBy is_shortage
            (λ reply. record { reply = reply; next = self.now.session.now.network })
            result (command_result self.now.session.now.network (Route dest budget arcs.now)) }
    {
        let network = self.session.network();
        let answer = route_bracket(self.alloc, network, dest, budget, arcs)?;
        Ok(Reply::Routed(RouteReply {
            dest,
            budget,
            answer,
            arcs: arcs.len() as u64,
        }))
    }

    /// Finds the time that one must allow for a confidence. It is planned on tables of its own: the
    /// session stays as it is.
    fn allow(&mut self, ask: Ask, confidence: Grain) -> Result<Reply, Refusal>
        ensures reply { AnswersBy is_shortage
            (λ reply. record { reply = reply; next = self.old.session.now.network })
            result (command_result self.old.session.now.network
            (Need (record { origin = ask.origin; dest = ask.dest; budget = ask.budget })
            confidence)) }
        ensures count { OnOk result (self.new.pushes.now ≡ self.old.pushes.now
            + 3 * table_cells self.old.session.now.network ask.origin ask.dest ask.budget) }
        ensures no_push { OnErr result (self.new.pushes.now ≡ self.old.pushes.now) }
        ensures session { self.new.session.now ≡ self.old.session.now }
        ensures desk { self.new.desk ≡ self.old.desk }
        ensures sink { self.new.out ≡ self.old.out }
        ensures pushes { self.new.pushes.ghost_name ≡ self.old.pushes.ghost_name }
    {
        let need = least_budgets(
            self.alloc,
            self.session.network(),
            ask.origin,
            ask.dest,
            confidence,
            ask.budget,
            self.products,
            self.pushes,
        )?;
        Ok(Reply::Allowed(Allowance {
            ask,
            confidence,
            need,
        }))
    }

    /// Does a command. Where it is refused the network stays as it is.
    fn perform(&mut self, command: Command) -> Result<Reply, Refusal>
        requires { HasFewPairs command }
        ensures reply { AnswersBy is_shortage
            (λ reply. record { reply = reply; next = self.new.session.now.network })
            result (command_result self.old.session.now.network command) }
        ensures kept { OnErr result
            (self.new.session.now.network ≡ self.old.session.now.network) }
        ensures effort { OnOk result (IsSpent
            (command_effort self.old.session.now.network command
            (kept_state self.old.session.now))
            self.old.pushes.now self.new.pushes.now (kept_state self.new.session.now)) }
        ensures no_effort { IfErr result (λ refusal. Unless (is_shortage refusal)
            (IsSpent (no_effort (kept_state self.old.session.now))
            self.old.pushes.now self.new.pushes.now (kept_state self.new.session.now))) }
        ensures desk { self.new.desk ≡ self.old.desk }
        ensures sink { self.new.out ≡ self.old.out }
        ensures pushes { self.new.pushes.ghost_name ≡ self.old.pushes.ghost_name }
    {
        match command {
            Command::Edit { arc, pairs } => self.edit(arc, &pairs),
            Command::Close { arc } => self.close(arc),
            Command::Ask(ask) => {
                let answer = self
                    .session
                    .ask(session_ask(ask), self.products, self.pushes)?;
                Ok(Reply::Answered(session_ask(ask), answer))
            }
            Command::Policy { ask, name } => {
                let table = self
                    .session
                    .policy(session_ask(ask), self.products, self.pushes)?;
                let bytes = write_policy(self.alloc, &table).map_err(AskFault::from)?;
                Ok(store(name, bytes))
            }
            Command::Bracket { ask, name } => {
                let table = self
                    .session
                    .bracket(session_ask(ask), self.products, self.pushes)?;
                let bytes = write_bracket(self.alloc, &table).map_err(AskFault::from)?;
                Ok(store(name, bytes))
            }
            Command::Route { dest, budget, arcs } => {
                self.route(NodeId(dest), budget, arcs.as_slice())
            }
            Command::Need { ask, confidence } => self.allow(session_ask(ask), confidence),
        }
    }

    /// Does a command. Its reply is for the line of this number.
    fn reply_to(&mut self, number: u32, command: Command) -> Result<Reply, NoMemory>
        requires { HasFewPairs command }
        ensures reply { IfOk result (λ reply.
            record { reply = Some reply; next = self.new.session.now.network }
            ≡ result_step self.old.session.now.network number
            (command_result self.old.session.now.network command)) }
        ensures effort { OnOk result (IsSpent
            (result_effort self.old.session.now.network command
            (kept_state self.old.session.now))
            self.old.pushes.now self.new.pushes.now (kept_state self.new.session.now)) }
        ensures desk { self.new.desk ≡ self.old.desk }
        ensures sink { self.new.out ≡ self.old.out }
        ensures pushes { self.new.pushes.ghost_name ≡ self.old.pushes.ghost_name }
    {
        match self.perform(command) {
            Ok(reply) => Ok(reply),
            Err(refusal) => refuse(number, refusal),
        }
    }

    /// Does what the line of this number asks for. A blank line or a comment has no reply.
    fn reply_to_line(
        &mut self,
        voice: &Voice,
        number: u32,
        line: &[u8],
    ) -> Result<Option<Reply>, NoMemory>
        requires { length line.now ≤ TEXT_LIMIT }
        ensures reply { IfOk result (λ reply.
            record { reply = reply; next = self.new.session.now.network }
            ≡ step self.old.session.now.network (script_line voice.now (number, line.now))) }
        ensures effort { OnOk result (IsSpent
            (line_effort self.old.session.now.network (script_line voice.now (number, line.now))
            (kept_state self.old.session.now))
            self.old.pushes.now self.new.pushes.now (kept_state self.new.session.now)) }
        ensures desk { self.new.desk ≡ self.old.desk }
        ensures sink { self.new.out ≡ self.old.out }
        ensures pushes { self.new.pushes.ghost_name ≡ self.old.pushes.ghost_name }
    {
        match voice.read(self.alloc, line) {
            Ok(None) => Ok(None),
            Ok(Some(command)) => Ok(Some(self.reply_to(number, command)?)),
            Err(refusal) => Ok(Some(refuse(number, refusal)?)),
        }
    }

    /// Plays lines. The status is that of all replies. It keeps nothing of the lines above but the
    /// network.
    fn play(&mut self, script: &Script) -> Result<Status, Stop>
        requires { IsShort script.now.source }
        ensures made { Ends result
            (outputs_of script.now.voice
            (replies_to self.old.session.now.network (lines_of script.now)))
            (D.state self.old.desk.now) (D.state self.new.desk.now)
            (O.state self.old.out.now) (O.state self.new.out.now) }
        ensures status { IfOk result (λ status. status
            ≡ replies_status (replies_to self.old.session.now.network (lines_of script.now))) }
        ensures count { OnOk result (self.new.pushes.now ≡ self.old.pushes.now
            + work self.old.session.now.network (lines_of script.now)
            (kept_state self.old.session.now)) }
        ensures desk { self.new.desk.ghost_name ≡ self.old.desk.ghost_name }
        ensures sink { self.new.out.ghost_name ≡ self.old.out.ghost_name }
        ensures pushes { self.new.pushes.ghost_name ≡ self.old.pushes.ghost_name }
    {
        let voice = &script.voice;
        match &script.source {
            Source::Ask(ask) => {
                let reply = self.reply_to(1, Command::Ask(*ask))?;
                let refused = make_reply(self.alloc, voice, Some(reply), self.desk, self.out)?;
                Ok(lines_status(refused))
            }
            Source::Text(text) => {
                let bytes = text.as_slice();
                let mut refused = false;
                for line in Lines::new(bytes) {
                    let line_bytes = &bytes[line.span.from..line.span.to];
                    let reply = self.reply_to_line(voice, line.number, line_bytes)?;
                    refused |= make_reply(self.alloc, voice, reply, self.desk, self.out)?;
                }
                Ok(lines_status(refused))
            }
        }
    }
}

/// Plays lines, each on the network that the lines above it left. A line that is refused changes
/// nothing, and the lines below it go on. Of a line that stores a file the reply is written only
/// after the file is stored. The status is that of all replies. The products of the planning are
/// counted with the blank's ledger.
pub fn play_lines<D: Desk, O: Sink, M: Ledger, P: Ledger>(
    alloc: Global,
    network: Network,
    script: &Script,
    desk: &mut D,
    out: &mut O,
    blank: Blank,
    pushes: &mut Steps<P>,
) -> Result<Status, Stop>
    requires short { IsShort script.now.source }
    requires name { blank.name ≡ M.name }
    requires parts { blank.parts ≡ M.parts }
    requires some { 0 < blank.parts }
    ensures made { Ends result
        (outputs_of script.now.voice (replies_to network (lines_of script.now)))
        (D.state desk.old) (D.state desk.new) (O.state out.old) (O.state out.new) }
    ensures status { IfOk result (λ status. status
        ≡ replies_status (replies_to network (lines_of script.now))) }
    ensures count { OnOk result (pushes.new
        ≡ pushes.old + work network (lines_of script.now) (first_state network.nodes)) }
{
    let mut session = Session::new(alloc, network)?;
    let mut products = Steps::<M>::new(blank);
    let mut player = Player {
        alloc,
        session: &mut session,
        desk,
        out,
        products: &mut products,
        pushes,
    };
    player.play(script)
}
