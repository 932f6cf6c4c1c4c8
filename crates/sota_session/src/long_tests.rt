// A long session beside the plain planner: each answer is the grid's.
ghost use Rattle.std.specs.Prelude.{◌≡◌, ◌≤◌, ◌<◌, IfOk};
ghost use Rattle.sota_hist.specs.Time.{total};

use crate::Session;
use crate::tests::ask;
use sota_hist::Histogram;
use sota_network::{Arc, Network, plain_grid};
use sota_units::{ArcId, Mass, NodeId, Scale, Tick};
use std::alloc::Global;
use std::process::Abort;
use std::test::Fail;

/// How many nodes and arcs there are.
const NODES: u32 = 12;

const ARCS: u32 = 48;

/// One of two ticks, or none: what the masses lack of 4 is lost.
fn some_time(alloc: Global, scale: Scale, number: u32) -> Result<Histogram, Fail>
    ensures { IfOk result (λ time. total time ≤ scale) }
{
    let pairs = [
        (Tick(1 + number % 5), Mass(1 + number % 3)),
        (Tick(6 + number % 7), Mass(1)),
    ];
    Ok(Histogram::at_most(alloc, scale, &pairs)?)
}

/// Each node leads to four others.
fn woven(alloc: Global) -> Result<Network, Fail> {
    let scale = Scale::new(4).ok_or("a scale")?;
    let mut arcs = Vec::new(alloc);
    for number in 0..ARCS {
        arcs.push(Arc {
            tail: NodeId(1 + number % NODES),
            head: NodeId(1 + (number * 5 + number / NODES + 3) % NODES),
            time: some_time(alloc, scale, number)?,
        })?;
    }
    Ok(Network::build(alloc, NODES, scale, arcs)?)
}

/// An ask has the answer of the plain planner.
fn same_answer(
    rt: &impl Abort,
    alloc: Global,
    session: &mut Session,
    origin: u32,
    dest: u32,
    budget: u32,
) -> Result<(), Fail>
    requires origin { 1 ≤ origin }
    requires dest { 1 ≤ dest }
    requires budget { budget ≤ 100 }
{
    let answer = ask(session, origin, dest, budget).ok().ok_or("an answer")?;
    let nodes = session.network().nodes();
    if nodes < origin || nodes < dest {
        return Err(Fail::from("another node"));
    }
    let grid = plain_grid(alloc, session.network(), NodeId(dest), budget)?;
    assert_eq!(rt; answer.lower, grid.lower(NodeId(origin), budget));
    assert_eq!(rt; answer.upper, grid.upper(NodeId(origin), budget));
    assert_eq!(rt; answer.next, grid.choice(NodeId(origin), budget));
    Ok(())
}

/// The step of this number: an ask, an edit or a close.
fn take(rt: &impl Abort, alloc: Global, session: &mut Session, step: u32) -> Result<(), Fail>
    requires { step < 2000 }
{
    if step % 3 == 0 {
        let (origin, dest) = (1 + step * 7 % NODES, 1 + step / 90 % NODES);
        return same_answer(rt, alloc, session, origin, dest, step * 13 % 50);
    }
    let time = if step % 16 == 1 {
        Histogram::closed()
    } else {
        some_time(alloc, session.network().scale(), step)?
    };
    assert_eq!(rt; session.edit(ArcId(1 + step * 11 % ARCS), time), Ok(()));
    Ok(())
}

/// All steps.
fn take_all(rt: &impl Abort, alloc: Global, session: &mut Session) -> Result<(), Fail> {
    for step in 0..2000 {
        take(rt, alloc, session, step)?;
    }
    Ok(())
}

#[test]
fn answers_are_the_grid(rt: HostRuntime) -> Result<(), Fail> {
    let mut session = Session::new(rt.alloc(), woven(rt.alloc())?)?;
    take_all(&rt, rt.alloc(), &mut session)
}
