// Each call with ample memory, on a network of one road and on a triangle.
ghost use Rattle.std.specs.Prelude.{◌≡◌, ◌≤◌, ◌<◌};

use crate::{Answer, Ask, AskFault, EditFault, Session};
use sota_hist::Histogram;
use sota_network::{Arc, Network};
use sota_units::{ArcId, Grain, Mass, NoMemory, NodeId, Scale, Steps, Tick};
use std::alloc::Global;
use std::marker::Brand;
use std::process::Abort;
use std::sync::ledger::{Blank, Ledger};
use std::test::Fail;

/// A road from node 1 to node 2 that takes so many ticks.
fn road(alloc: Global, tick: u32) -> Result<Network, NoMemory>
    requires { 1 ≤ tick }
{
    let mut arcs = Vec::new(alloc);
    let (tail, head) = (NodeId(1), NodeId(2));
    arcs.push(Arc::certain(alloc, tail, head, Scale::ONE, Tick(tick))?)?;
    Network::build(alloc, 2, Scale::ONE, arcs)
}

/// Node 1 leads to 3 by way of 2 or directly. The road from 1 to 2 takes one tick.
fn three_roads(alloc: Global) -> Result<Network, Fail> {
    let scale = Scale::new(4).ok_or("a scale")?;
    let late = [(Tick(1), Mass(2)), (Tick(3), Mass(2))];
    let direct = [(Tick(3), Mass(3)), (Tick(5), Mass(1))];
    let mut arcs = Vec::new(alloc);
    arcs.push(Arc::certain(alloc, NodeId(1), NodeId(2), scale, Tick(1))?)?;
    arcs.push(Arc {
        tail: NodeId(2),
        head: NodeId(3),
        time: Histogram::build(alloc, scale, &late)?,
    })?;
    arcs.push(Arc {
        tail: NodeId(1),
        head: NodeId(3),
        time: Histogram::build(alloc, scale, &direct)?,
    })?;
    Ok(Network::build(alloc, 3, scale, arcs)?)
}

/// A session of the one road.
pub(crate) fn one_road(alloc: Global, tick: u32) -> Result<Session, NoMemory>
    requires { 1 ≤ tick }
{
    Session::new(alloc, road(alloc, tick)?)
}

/// A session of the triangle.
pub(crate) fn triangle(alloc: Global) -> Result<Session, Fail> {
    Ok(Session::new(alloc, three_roads(alloc)?)?)
}

fn ask_counted<M: Ledger, P: Ledger>(
    session: &mut Session,
    ask: Ask,
    products: Blank,
    pushes: Blank,
) -> Result<Answer, AskFault>
    requires products { (products.name ≡ M.name) × (products.parts ≡ M.parts)
        × (0 < products.parts) }
    requires pushes { (pushes.name ≡ P.name) × (pushes.parts ≡ P.parts)
        × (0 < pushes.parts) }
{
    let mut products = Steps::<M>::new(products);
    let mut pushes = Steps::<P>::new(pushes);
    session.ask(ask, &mut products, &mut pushes)
}

/// The answer to an ask.
pub(crate) fn ask(
    session: &mut Session,
    origin: u32,
    dest: u32,
    budget: u32,
) -> Result<Answer, AskFault> {
    let ask = Ask {
        origin: NodeId(origin),
        dest: NodeId(dest),
        budget,
    };
    ask_counted::<Brand, Brand>(session, ask, Blank::new(1), Blank::new(1))
}

/// What is done in a session of the triangle.
#[derive(Clone, Copy)]
enum Step {
    /// An ask by its origin, destination and budget; both its bounds, and its arc.
    Ask(u32, u32, u32, u64, u32),
    /// An arc takes one of two ticks, the first three times as likely.
    Edit(u32, u32, u32),
    /// An arc is closed, or else why it is not.
    Close(u32, Option<EditFault>),
}

const HALF: u64 = 500_000_000_000_000_000;

const SURELY: u64 = 1_000_000_000_000_000_000;

// Steps, and the fronts after each. A longer budget adds what is missing, and a shorter one
// nothing. An edit leaves the entries that it cannot change, one without a difference leaves all,
// and the next ask adds the others again. Another destination begins afresh.
const STEPS: [(Step, [u32; 3]); 13] = [
    (Step::Ask(1, 3, 2, HALF, 1), [3, 2, 0]),
    (Step::Ask(1, 3, 9, SURELY, 1), [10, 9, 0]),
    (Step::Ask(1, 3, 4, SURELY, 1), [10, 9, 0]),
    (Step::Edit(3, 3, 6), [5, 9, 0]),
    (Step::Ask(1, 3, 5, SURELY, 1), [6, 9, 0]),
    (Step::Close(3, None), [3, 9, 0]),
    (Step::Ask(1, 3, 9, SURELY, 1), [10, 9, 0]),
    (Step::Edit(2, 1, 3), [2, 1, 0]),
    (Step::Ask(1, 3, 9, SURELY, 1), [10, 9, 0]),
    (Step::Edit(2, 1, 3), [10, 9, 0]),
    (Step::Close(2, None), [2, 1, 0]),
    (Step::Ask(1, 2, 1, SURELY, 1), [2, 0, 0]),
    (Step::Close(4, Some(EditFault::NoArc)), [2, 0, 0]),
];

/// Takes one step.
fn take(rt: &impl Abort, alloc: Global, session: &mut Session, step: Step) -> Result<(), Fail> {
    match step {
        Step::Ask(origin, dest, budget, value, arc) => {
            let answer = ask(session, origin, dest, budget).ok().ok_or("an answer")?;
            assert_eq!(rt; answer.lower.get(), value);
            assert_eq!(rt; answer.upper.get(), value);
            assert_eq!(rt; answer.next, Some(ArcId(arc)));
        }
        Step::Edit(arc, one, other) => {
            let pairs = [(Tick(one), Mass(3)), (Tick(other), Mass(1))];
            let time = Histogram::build(alloc, session.network().scale(), &pairs)?;
            assert_eq!(rt; session.edit(ArcId(arc), time), Ok(()));
        }
        Step::Close(arc, fault) => {
            let done = session.edit(ArcId(arc), Histogram::closed());
            assert_eq!(rt; done.err(), fault);
        }
    }
    Ok(())
}

/// The front and the base of a node, 0 where there is no such node.
fn kept(session: &Session, node: u32) -> (u32, u32) {
    if node == 0 || session.network().nodes() < node {
        return (0, 0);
    }
    (session.front(NodeId(node)), session.base(NodeId(node)))
}

/// Takes all steps.
fn take_all(
    rt: &impl Abort,
    alloc: Global,
    session: &mut Session,
    steps: &[(Step, [u32; 3])],
) -> Result<(), Fail> {
    for (step, fronts) in steps {
        take(rt, alloc, session, *step)?;
        let (one, two, three) = (kept(session, 1).0, kept(session, 2).0, kept(session, 3).0);
        assert!(rt; [one, two, three] == *fronts);
    }
    Ok(())
}

#[test]
fn asks_and_edits(rt: HostRuntime) -> Result<(), Fail> {
    let mut session = triangle(rt.alloc())?;
    assert_eq!(rt; session.dest(), None);
    assert_eq!(rt; kept(&session, 1), (0, 65536));
    take_all(&rt, rt.alloc(), &mut session, &STEPS)?;
    assert_eq!(rt; session.dest(), Some(NodeId(2)));
    assert_eq!(rt; kept(&session, 1), (2, 1));
    Ok(())
}

// An ask that found no memory, asked again. Here there is enough; `rt try --test --fail-alloc N`
// has one allocation find none.
#[test]
fn asks_after_a_want(rt: HostRuntime) -> Result<(), Fail> {
    let mut session = triangle(rt.alloc())?;
    let answer = Answer {
        lower: Grain::new(SURELY).ok_or("a whole")?,
        upper: Grain::new(SURELY).ok_or("a whole")?,
        next: Some(ArcId(1)),
    };
    for _ in 0..3 {
        let found = ask(&mut session, 1, 3, 9);
        assert!(rt; found == Ok(answer) || found == Err(AskFault::NoMemory));
    }
    Ok(())
}

#[test]
fn refused_asks(rt: HostRuntime) -> Result<(), Fail> {
    let mut session = one_road(rt.alloc(), 2)?;
    let refused = [
        (3, 0, 65536, AskFault::NoOrigin),
        (0, 1, 0, AskFault::NoOrigin),
        (2, 3, 65536, AskFault::NoDest),
        (1, 2, 65536, AskFault::Budget),
    ];
    for (origin, dest, budget, fault) in refused {
        assert_eq!(rt; ask(&mut session, origin, dest, budget), Err(fault));
    }
    Ok(())
}

#[test]
fn words_of_edits(rt: HostRuntime) -> Result<(), Fail> {
    assert!(rt; EditFault::NoArc.word() == b"NoArc".as_slice());
    Ok(())
}
