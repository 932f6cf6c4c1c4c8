// The plan of a network that is made.
ghost use Rattle.std.specs.Prelude.{◌≡◌, ◌+◌, ◌≤◌, ◌<◌, true, Ok, Err, IfOk, IfErr, OnOk};
ghost use Rattle.sota_units.specs.Memory.{Answers, Unless};
ghost use Rattle.sota_edge.specs.Desk.{DeskState};
ghost use Rattle.sota_network.specs.Network.{IsNet};
ghost use Rattle.sota_bounds.specs.Faults.{TABLE_LIMIT};
ghost use Rattle.sota_polfile.specs.Table.{cells};
ghost use Rattle.sota_polfile.specs.Spelling.{file_len};
ghost use Rattle.sota_bounds.specs.AskFaults as asks;
ghost use Rattle.sota_session.specs.Asks.{ask_fault};
ghost use Rattle.sota_session.specs.State.{kept_state, pushes_for};
ghost use Rattle.sota_app.specs.Outputs.{Ends, LineEnds};
ghost use Rattle.sota_app.specs.Replies.{refused_line};
ghost use Rattle.sota_app.specs.Script.{session_ask};
ghost use Rattle.sota_app.specs.Shown.{made_line, plan_result, HoldsUnlessRefused};
ghost use Rattle.sota_app.specs.Outcome.{shown};
ghost use Rattle.sota_app.specs.Work.{region_pushes, pushes_unless};
ghost use Rattle.sota_app.specs.declared.reply.Refusal.TheVariants as refusals;

use crate::checking::check_policy;
use crate::line::LineOut;
use crate::output::write_line;
use crate::player::{refuse, session_ask};
use crate::reply::{Refusal, write_answer};
use crate::status::Status;
use crate::stop::Stop;
use sota_edge::Sink;
use sota_network::Network;
use sota_polfile::{PolicyTable, read_policy, write_policy};
use sota_script::Ask3;
use sota_session::laws::{accepted_asks_fit, asks_push_their_cells};
use sota_session::{Answer, Ask, AskFault, Session};
use sota_text::TextOut;
use sota_units::{NoMemory, Steps};
use std::alloc::Global;
use std::sync::ledger::{Blank, Ledger};

/// The answer of an ask, and its policy.
#[derive(Drop)]
pub struct Plan {
    pub answer: Answer,
    pub table: PolicyTable,
}

/// A policy that was read, and the length of its file.
#[derive(Drop)]
struct Reread {
    table: PolicyTable,
    len: usize,
}

/// Answers an ask on a network, and has its policy written, read again and judged. The products of
/// the planning are counted with the blank's ledger.
pub fn show_plan<O: Sink, M: Ledger, P: Ledger>(
    alloc: Global,
    network: Network,
    ask: Ask3,
    out: &mut O,
    blank: Blank,
    pushes: &mut Steps<P>,
) -> Result<Status, Stop>
    requires name { blank.name ≡ M.name }
    requires parts { blank.parts ≡ M.parts }
    requires some { 0 < blank.parts }
    ensures made { (d : DeskState) → Ends result (shown network (session_ask ask)).outputs d d
        (O.state out.old) (O.state out.new) }
    ensures status { IfOk result (λ status. status ≡ (shown network (session_ask ask)).status) }
    ensures holds { IfOk result (λ _. HoldsUnlessRefused network (session_ask ask)) }
    ensures count { OnOk result (pushes.new ≡ pushes.old
        + pushes_unless (ask_fault network (session_ask ask))
        (region_pushes network (session_ask ask))) }
{
    asks_push_their_cells();
    let mut session = Session::new(alloc, network)?;
    let mut products = Steps::<M>::new(blank);
    let ask = session_ask(ask);
    match make_plan(&mut session, &ask, &mut products, pushes) {
        Ok(plan) => write_plan(alloc, session.network(), &ask, &plan, out),
        Err(fault) => refuse_ask(alloc, fault, out),
    }
}

/// The answer of an ask, and its policy, which pushes nothing more. The network of the session
/// stays as it is.
fn make_plan<M: Ledger, P: Ledger>(
    session: &mut Session,
    ask: &Ask,
    products: &mut Steps<M>,
    pushes: &mut Steps<P>,
) -> Result<Plan, AskFault>
    ensures plan { Answers asks.is_shortage result (plan_result session.old.network ask.now) }
    ensures holds { IfOk result (λ _. HoldsUnlessRefused session.old.network ask.now) }
    ensures few { IfOk result (λ plan. cells plan.table ≤ TABLE_LIMIT) }
    ensures kept { session.new.network ≡ session.old.network }
    ensures valid { IsNet session.new.network }
    ensures count { OnOk result (pushes.new ≡ pushes.old
        + pushes_for session.old.network ask.now (kept_state session.old)) }
    ensures no_push { IfErr result (λ fault.
        Unless (asks.is_shortage fault) (pushes.new ≡ pushes.old)) }
{
    accepted_asks_fit();
    asks_push_their_cells();
    let answer = session.ask(*ask, products, pushes)?;
    let table = session.policy(*ask, products, pushes)?;
    // A check knows what holds of every table once this one is read.
    prove!(table.head().nodes >= 1);
    Ok(Plan { answer, table })
}

/// Writes what was made, the answer, and the verdict on the policy once it is read again.
fn write_plan<O: Sink>(
    alloc: Global,
    network: &Network,
    ask: &Ask,
    plan: &Plan,
    out: &mut O,
) -> Result<Status, Stop>
    requires plan { plan_result network.now ask.now ≡ Ok plan.now }
    requires few { cells plan.now.table ≤ TABLE_LIMIT }
    ensures made { (d : DeskState) → Ends result (shown network.now ask.now).outputs d d
        (O.state out.old) (O.state out.new) }
    ensures status { IfOk result (λ status. status ≡ (shown network.now ask.now).status) }
{
    let again = read_again(alloc, &plan.table)?;
    let made = made_text(alloc, network, &again)?;
    let answer = write_answer(alloc, ask, &plan.answer)?;
    write_line(&made, out)?;
    write_line(&answer, out)?;
    check_policy(alloc, network, &again.table, out)
}

/// The policy, written and read again.
fn read_again(alloc: Global, table: &PolicyTable) -> Result<Reread, NoMemory>
    requires { cells table.now ≤ TABLE_LIMIT }
    ensures table { IfOk result (λ again. again.table ≡ table.now) }
    ensures len { IfOk result (λ again. again.len ≡ file_len table.now) }
{
    // No file of so few rows and entries is too long.
    prove!(table.rows().len() <= 1_000_000);
    let bytes = write_policy(alloc, table)?;
    match read_policy(alloc, &bytes) {
        Ok(table) => Ok(Reread {
            table,
            len: bytes.len(),
        }),
        // What was written is read, unless memory is wanted.
        Err(_) => Err(NoMemory),
    }
}

/// The line `made N M CELLS BYTES`.
fn made_text(alloc: Global, network: &Network, again: &Reread) -> Result<TextOut, NoMemory>
    requires { again.now.len ≡ file_len again.now.table }
    ensures { IfOk result (λ text. text ≡ made_line network.now again.now.table) }
{
    let mut line = LineOut::new(alloc, b"made")?;
    line.number(u64::from(network.nodes()))?;
    line.number(u64::from(network.arc_count()))?;
    line.number(again.table.cells())?;
    line.number(again.len as u64)?;
    line.end()
}

/// Writes why the ask is refused. Where memory was wanted nothing is written.
fn refuse_ask<O: Sink>(alloc: Global, fault: AskFault, out: &mut O) -> Result<Status, Stop>
    ensures line { LineEnds result (refused_line 1 (refusals.Ask fault))
        (O.state out.old) (O.state out.new) }
    ensures status { IfOk result (λ status. status ≡ Status.SomeRefused) }
    ensures shortage { asks.is_shortage fault ≡ true
        → (result ≡ Err Stop.NoMemory) × (O.state out.new ≡ O.state out.old) }
{
    let reply = refuse(1, Refusal::Ask(fault))?;
    write_line(&reply.line(alloc)?, out)?;
    Ok(Status::SomeRefused)
}
