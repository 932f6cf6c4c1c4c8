// Each call with ample memory: two nodes, of which the second is the destination.
ghost use Rattle.std.specs.Prelude.{◌≡◌, ◌<◌, ◌≤◌, ◌∷◌, [], length, IfOk, None, Some};
ghost use Rattle.sota_kept.specs.NodeTables.{known_end};
ghost use Rattle.sota_tables.specs.Views.{IsKnownAt, table_at, room_of};

use crate::Tables;
use sota_network::Choice;
use sota_units::{ArcId, Grain, NoMemory, NodeId, Steps};
use std::alloc::Global;
use std::marker::Brand;
use std::process::Abort;
use std::sync::ledger::{Blank, Ledger};
use std::test::Fail;

/// Tables with a base of 1 at the first node, and room for two entries.
fn two_nodes(alloc: Global) -> Result<Tables, NoMemory>
    ensures nodes { IfOk result (λ t. length t.fronts ≡ 2) }
    ensures dest { IfOk result (λ t. t.dest ≡ Some 2) }
    ensures table { IfOk result (λ t. table_at t 1
        ≡ record { front = 0; base = 1; lower = []; upper = []; choices = [] }) }
    ensures room { IfOk result (λ t. 2 ≤ room_of t 1) }
{
    let mut tables = Tables::new(alloc, 2)?;
    tables.start(NodeId(2));
    tables.rebase(&[1, 0]);
    tables.regrow(&[3, 0])?;
    Ok(tables)
}

/// Two entries of the first node: maybe, and for certain by the second arc.
fn push_two<P: Ledger>(tables: &mut Tables, blank: Blank)
    requires name { blank.name ≡ P.name }
    requires parts { blank.parts ≡ P.parts }
    requires some { 0 < blank.parts }
    requires nodes { length tables.old.fronts ≡ 2 }
    requires table { table_at tables.old 1
        ≡ record { front = 0; base = 1; lower = []; upper = []; choices = [] } }
    requires room { 2 ≤ room_of tables.old 1 }
    ensures nodes { length tables.new.fronts ≡ 2 }
    ensures dest { tables.new.dest ≡ tables.old.dest }
    ensures table { table_at tables.new 1 ≡ record {
      front = 3;
      base = 1;
      lower = 0 ∷ 1000000000000000000 ∷ [];
      upper = 1000000000000000000 ∷ 1000000000000000000 ∷ [];
      choices = None ∷ Some 2 ∷ [];
    } }
{
    let mut pushes = Steps::<P>::new(blank);
    tables.push_entry(NodeId(1), Grain::ZERO, Grain::ONE, None, &mut pushes);
    let (one, second) = ([Grain::ONE], [Choice::new(ArcId(2))]);
    tables.push_extent(NodeId(1), &one, &one, &second, &mut pushes);
}

/// What is known of a node at a budget: the two bounds and the choice.
fn known(tables: &Tables, node: NodeId, budget: u32) -> (Grain, Grain, Option<ArcId>)
    requires { IsKnownAt tables.now node budget }
{
    (
        tables.lower(node, budget),
        tables.upper(node, budget),
        tables.choice(node, budget),
    )
}

/// The first node is known from below its base up to its front, and the destination everywhere.
fn answers(rt: &impl Abort, tables: &Tables)
    requires dest { tables.now.dest ≡ Some 2 }
    requires nodes { length tables.now.fronts ≡ 2 }
    requires end { known_end (table_at tables.now 1) ≡ 3 }
{
    let (none, one) = (Grain::ZERO, Grain::ONE);
    assert_eq!(rt; known(tables, NodeId(1), 0), (none, none, None));
    assert_eq!(rt; known(tables, NodeId(1), 1), (none, one, None));
    assert_eq!(rt; known(tables, NodeId(1), 2), (one, one, Some(ArcId(2))));
    assert_eq!(rt; known(tables, NodeId(2), 9), (one, one, None));
}

/// The front, the base and the rows of the first node.
fn rows(rt: &impl Abort, tables: &Tables)
    requires { length tables.now.fronts ≡ 2 }
{
    assert_eq!(rt; (tables.front(NodeId(1)), tables.base(NodeId(1))), (3, 1));
    assert_eq!(rt;
        tables.lower_row(NodeId(1)),
        [Grain::ZERO, Grain::ONE].as_slice()
    );
    assert_eq!(rt;
        tables.upper_row(NodeId(1)),
        [Grain::ONE, Grain::ONE].as_slice()
    );
}

#[test]
fn keeps_entries(rt: HostRuntime) -> Result<(), Fail> {
    let mut tables = two_nodes(rt.alloc())?;
    push_two::<Brand>(&mut tables, Blank::new(1));
    assert_eq!(rt; tables.dest(), Some(NodeId(2)));
    rows(&rt, &tables);
    answers(&rt, &tables);
    tables.cut_to(NodeId(1), 2);
    assert_eq!(rt; tables.lower_row(NodeId(1)), [Grain::ZERO].as_slice());
    Ok(())
}
