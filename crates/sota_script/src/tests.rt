// Examples from outside the definitions.
use crate::{Ask3, Command, LineFault, read_line};
use sota_units::{ArcId, Grain, Items, Mass, Tick};
use std::alloc::Global;
use std::test::Fail;

#[test]
fn refused_lines(rt: HostRuntime) -> Result<(), Fail> {
    let faults = [
        ("go", LineFault::Word),
        ("edits 1 1:1", LineFault::Word),
        ("policies 1 2 3 p", LineFault::Word),
        ("ASK 1 2 3", LineFault::Word),
        ("edit", LineFault::Count),
        ("edit x", LineFault::Count),
        ("close", LineFault::Count),
        ("close x 1", LineFault::Count),
        ("ask 1 3", LineFault::Count),
        ("ask 1 x 3 4", LineFault::Count),
        ("policy 1 2 3", LineFault::Count),
        ("policy 1 x 3 p q", LineFault::Count),
        ("brackets 1 2 3 p", LineFault::Word),
        ("bracket 1 2 3", LineFault::Count),
        ("bracket 1 x 3 p q", LineFault::Count),
        ("bracket 1 2 x p", LineFault::Number),
        ("route 3 9", LineFault::Count),
        ("routes 3 9 1", LineFault::Word),
        ("route 3 9 1 x", LineFault::Number),
        ("needs 1 2 0.500000000000000000 9", LineFault::Word),
        ("need 1 2 0.5", LineFault::Count),
        ("need 1 2 x 9 9", LineFault::Count),
        ("need 1 2 0.500000000000000000 x", LineFault::Number),
        ("need 1 2 0.5 9", LineFault::Number),
        ("need 1 2 0,500000000000000000 9", LineFault::Number),
        ("need 1 2 1.000000000000000001 9", LineFault::Number),
        ("need 1 2 2.000000000000000000 9", LineFault::Number),
        ("close 1:1", LineFault::Number),
        ("edit x 1:1", LineFault::Number),
        ("edit 2 1-4", LineFault::Number),
        ("edit 1 1:1 2", LineFault::Number),
        ("edit 1 1:1 :2", LineFault::Number),
        ("edit 1 1: 2:1", LineFault::Number),
        ("edit 1 1:1:1", LineFault::Number),
        ("edit 1 1:4294967296", LineFault::Number),
        ("ask 1 2 4294967296", LineFault::Number),
        ("ask 1 2 3\r", LineFault::Number),
        ("ask 1 3 x", LineFault::Number),
        ("policy 1 3 x p", LineFault::Number),
    ];
    for (line, want) in faults {
        assert_eq!(rt; fault_of(rt.alloc(), line.as_bytes()), Some(want), "{line}");
    }
    let names = [
        (b"policy 1 3 3 p\xff".as_slice(), LineFault::Name),
        (b"policy 1 3 x p\xff".as_slice(), LineFault::Number),
        (b"policy 1 3 3 p \xff".as_slice(), LineFault::Count),
    ];
    for (line, want) in names {
        assert_eq!(rt; fault_of(rt.alloc(), line), Some(want));
    }
    Ok(())
}

/// The fault of a line, none where it has none or is long.
fn fault_of(alloc: Global, line: &[u8]) -> Option<LineFault> {
    if line.len() > 100 {
        return None;
    }
    read_line(alloc, line).err()
}

/// Whether a command is this ask.
fn is_ask(command: &Command, want: &Ask3) -> bool {
    match command {
        Command::Ask(ask) => ask == want,
        Command::Edit { .. } | Command::Close { .. } | Command::Bracket { .. } => false,
        Command::Policy { .. } | Command::Route { .. } | Command::Need { .. } => false,
    }
}

/// Whether a command stores the policy of this ask under this name.
fn is_policy(command: &Command, want: &Ask3, want_name: &str) -> bool {
    match command {
        Command::Policy { ask, name } => ask == want && name.as_str() == want_name,
        Command::Edit { .. } | Command::Close { .. } | Command::Bracket { .. } => false,
        Command::Ask(_) | Command::Route { .. } | Command::Need { .. } => false,
    }
}

/// Whether a command stores the bracket of this ask under this name.
fn is_bracket(command: &Command, want: &Ask3, want_name: &str) -> bool {
    match command {
        Command::Bracket { ask, name } => ask == want && name.as_str() == want_name,
        Command::Edit { .. } | Command::Close { .. } | Command::Policy { .. } => false,
        Command::Ask(_) | Command::Route { .. } | Command::Need { .. } => false,
    }
}

/// Whether a command is the edit of an arc by these pairs.
fn is_edit(command: Command, want: ArcId, want_pairs: &[(Tick, Mass)]) -> bool {
    match command {
        Command::Edit { arc, pairs } => {
            let pairs = Items::new(pairs.into_vec());
            arc == want && pairs.as_slice() == want_pairs
        }
        Command::Close { .. } | Command::Ask(_) | Command::Bracket { .. } => false,
        Command::Policy { .. } | Command::Route { .. } | Command::Need { .. } => false,
    }
}

/// Whether a command is this route to a destination within a budget.
fn is_route(command: &Command, want_dest: u32, want_budget: u32, route: &[ArcId]) -> bool {
    match command {
        Command::Route { dest, budget, arcs } => {
            *dest == want_dest && *budget == want_budget && arcs.as_slice() == route
        }
        Command::Edit { .. } | Command::Close { .. } | Command::Bracket { .. } => false,
        Command::Ask(_) | Command::Policy { .. } | Command::Need { .. } => false,
    }
}

/// Whether a command is the need of this ask and confidence.
fn is_need(command: &Command, want: &Ask3, want_confidence: Grain) -> bool {
    match command {
        Command::Need { ask, confidence } => ask == want && *confidence == want_confidence,
        Command::Edit { .. } | Command::Close { .. } | Command::Bracket { .. } => false,
        Command::Ask(_) | Command::Policy { .. } | Command::Route { .. } => false,
    }
}

#[test]
fn commands(rt: HostRuntime) -> Result<(), Fail> {
    for line in ["", " \t ", "#", "\t# ask 1 2 3", "#edit 1"] {
        let bytes = line.as_bytes();
        assert!(rt; bytes.len() < 100);
        assert!(rt; read_line(rt.alloc(), bytes)?.is_none(), "{line}");
    }
    let pairs = [(Tick(5), Mass(1)), (Tick(0), Mass(4)), (Tick(5), Mass(0))];
    let command = read_line(rt.alloc(), b"edit 3 5:1\t0:04 5:0")?.ok_or("an edit")?;
    assert!(rt; is_edit(command, ArcId(3), &pairs));
    let command = read_line(rt.alloc(), b"close\t07 ")?.ok_or("a close")?;
    assert!(rt; matches!(&command, Command::Close { arc: ArcId(7) }));
    let command = read_line(rt.alloc(), b"route 3 65536\t1 02 ")?.ok_or("a route")?;
    assert!(rt; is_route(&command, 3, 65536, &[ArcId(1), ArcId(2)]));
    Ok(())
}

#[test]
fn plans(rt: HostRuntime) -> Result<(), Fail> {
    let ask = Ask3 {
        origin: 1,
        dest: 2,
        budget: 65536,
    };
    let command = read_line(rt.alloc(), b"\task 01 2  65536 ")?.ok_or("an ask")?;
    assert!(rt; is_ask(&command, &ask));
    let line = "policy\t01 2 65536 d\u{e9}p\u{f4}t/1.pol".as_bytes();
    assert!(rt; line.len() < 100);
    let command = read_line(rt.alloc(), line)?.ok_or("a policy")?;
    assert!(rt; is_policy(&command, &ask, "d\u{e9}p\u{f4}t/1.pol"));
    let command = read_line(rt.alloc(), b"bracket 1 2\t65536 b")?.ok_or("a bracket")?;
    assert!(rt; is_bracket(&command, &ask, "b"));
    let command = read_line(rt.alloc(), b"need 1\t2 1.000000000000000000 65536")?.ok_or("a need")?;
    assert!(rt; is_need(&command, &ask, Grain::ONE));
    Ok(())
}
