// Examples from outside the definitions: the objects are as Python's `json` prints them, with its
// keys sorted, no blanks, and letters beyond ASCII as they stand.
use crate::{Names, NamesFault, Reply, ResolveFault, Text, reply_json, resolve};
use sota_units::{Grain, NoMemory};
use std::alloc::Global;
use std::test::Fail;

#[test]
fn faults_of_names(rt: HostRuntime) -> Result<(), Fail> {
    let texts: [(&[u8], Option<NamesFault>); 12] = [
        (b"1 Home\n\n # no place\n3 Work\r\n", None),
        (b"1 Home\n1 Depot", None),
        (b"", None),
        (b"1 Home\n2 Home", Some(NamesFault::RepeatedName(2))),
        (b"1", Some(NamesFault::Fields(1))),
        (b"#\nx y z", Some(NamesFault::Fields(2))),
        (b"x \xff", Some(NamesFault::Number(1))),
        (b"0 \xff", Some(NamesFault::NodeRange(1))),
        (b"4 Home", Some(NamesFault::NodeRange(1))),
        (b"4294967296 a", Some(NamesFault::Number(1))),
        (b"3 a\n3 \xff", Some(NamesFault::NotText(2))),
        (b"2 a\n3 a\n1", Some(NamesFault::RepeatedName(2))),
    ];
    for (text, want) in texts {
        assert!(rt; text.len() < 1000);
        let fault = Names::read(rt.alloc(), text, 3).err();
        assert_eq!(rt; fault, want);
    }
    Ok(())
}

#[test]
fn names_of_places(rt: HostRuntime) -> Result<(), Fail> {
    let text = "3 Work\n1 Home\n3 Büro\n1 Depot\n".as_bytes();
    assert!(rt; text.len() < 1000);
    let names = Names::read(rt.alloc(), text, 3)?;
    for (name, want) in [
        ("Home", Some(1)),
        ("Depot", Some(1)),
        ("Büro", Some(3)),
        ("Work", Some(3)),
        ("work", None),
        ("", None),
    ] {
        assert_eq!(rt; names.find(name), want, "{name}");
    }
    for (node, want) in [
        (0, None),
        (1, Some("Home")),
        (2, None),
        (3, Some("Work")),
        (9, None),
    ] {
        assert!(rt; names.first(node) == want);
    }
    let lines: [(&[u8], Result<&[u8], ResolveFault>); 15] = [
        (b"ask @Home @Work 3", Ok(b"ask 1 3 3")),
        (
            b" policy\t@Work  @Home\t9 @Home ",
            Ok(b" policy\t3  1\t9 @Home "),
        ),
        (b"bracket @Depot 3 9 p", Ok(b"bracket 1 3 9 p")),
        ("need 1 @Büro 1.0 9".as_bytes(), Ok(b"need 1 3 1.0 9")),
        (b"route @Work @Home 1", Ok(b"route 3 @Home 1")),
        (b"ask 1 3 @Shop", Ok(b"ask 1 3 @Shop")),
        (b"ask @Home", Ok(b"ask 1")),
        (b"ask", Ok(b"ask")),
        (b"  ", Ok(b"  ")),
        (b"edit @Home 1:1", Ok(b"edit @Home 1:1")),
        (b"ASK @Home 1 1", Ok(b"ASK @Home 1 1")),
        (b"ask @Shop", Err(ResolveFault::Place)),
        (b"ask 1 @ 3", Err(ResolveFault::Place)),
        (b"ask 1 @\xff 3", Err(ResolveFault::Place)),
        (b"route @Shop", Err(ResolveFault::Place)),
    ];
    for (line, want) in lines {
        match (resolve(rt.alloc(), &names, line), want) {
            (Ok(line), Ok(want)) => assert!(rt; line.as_slice() == want),
            (Err(fault), Err(want)) => assert_eq!(rt; fault, want),
            _ => assert!(rt; false),
        }
    }
    Ok(())
}

/// Whether the object of a reply is this text.
fn is_shown(alloc: Global, names: &Names, reply: Reply, want: &str) -> Result<bool, NoMemory> {
    Ok(reply_json(alloc, names, &reply)?.as_slice() == want.as_bytes())
}

fn answer(ends: (u32, u32), budget: u32, bound: Grain, arc: Option<u32>) -> Reply {
    Reply::Answer {
        origin: ends.0,
        dest: ends.1,
        budget,
        lower: bound,
        upper: bound,
        arc,
    }
}

fn need(ends: (u32, u32), early: Option<u32>, sure: Option<u32>) -> Reply {
    Reply::Need {
        origin: ends.0,
        dest: ends.1,
        confidence: Grain::ONE,
        most: 9,
        early,
        sure,
    }
}

fn refused(cause: Text, count: Option<u64>) -> Reply {
    Reply::Refused {
        line: 1,
        cause,
        count,
    }
}

#[test]
fn objects(rt: HostRuntime) -> Result<(), Fail> {
    let alloc = rt.alloc();
    let text = "1 Home\n3 Work\n1 Depot\n2 \"a\\b\"\u{1}\u{8}\u{7f}\u{c}é\u{1f600}".as_bytes();
    assert!(rt; text.len() < 1000);
    let names = Names::read(alloc, text, 4)?;
    let half = Grain::new(750_000_000_000_000_000).ok_or("a probability")?;
    let want = "{\"arc\":3,\"budget\":3,\"dest\":3,\"from\":\"Home\",\"kind\":\"answer\",\
        \"lower\":750000000000000000,\"origin\":1,\"to\":\"Work\",\"upper\":750000000000000000}";
    assert!(rt; is_shown(alloc, &names, answer((1, 3), 3, half, Some(3)), want)?);
    let want = "{\"arc\":null,\"budget\":9,\"dest\":1,\"from\":\"Work\",\"kind\":\"answer\",\
        \"lower\":0,\"origin\":3,\"to\":\"Home\",\"upper\":0}";
    assert!(rt; is_shown(alloc, &names, answer((3, 1), 9, Grain::ZERO, None), want)?);
    let want = "{\"arc\":7,\"budget\":65535,\"dest\":2,\"from\":null,\"kind\":\"answer\",\
        \"lower\":0,\"origin\":4,\"to\":\"\\\"a\\\\b\\\"\\u0001\\b\u{7f}\\fé\u{1f600}\",\
        \"upper\":0}";
    assert!(rt;
        is_shown(
            alloc,
            &names,
            answer((4, 2), 65535, Grain::ZERO, Some(7)),
            want
        )?
    );
    let want = "{\"confidence\":1000000000000000000,\"dest\":4,\"early\":5,\"from\":\"Home\",\
        \"kind\":\"need\",\"most\":9,\"origin\":1,\"sure\":null,\"to\":null}";
    assert!(rt; is_shown(alloc, &names, need((1, 4), Some(5), None), want)?);
    let want = "{\"confidence\":1000000000000000000,\"dest\":3,\"early\":null,\"from\":null,\
        \"kind\":\"need\",\"most\":9,\"origin\":4,\"sure\":0,\"to\":\"Work\"}";
    assert!(rt; is_shown(alloc, &names, need((4, 3), None, Some(0)), want)?);
    Ok(())
}

#[test]
fn short_objects(rt: HostRuntime) -> Result<(), Fail> {
    let alloc = rt.alloc();
    let text = b"3 Work".as_slice();
    assert!(rt; text.len() < 1000);
    let names = Names::read(alloc, text, 4)?;
    let want = "{\"arc\":7,\"kind\":\"edited\"}";
    assert!(rt; is_shown(alloc, &names, Reply::Edited(7), want)?);
    let want = "{\"arc\":8,\"kind\":\"closed\"}";
    assert!(rt; is_shown(alloc, &names, Reply::Closed(8), want)?);
    let want = "{\"kind\":\"stored\",\"name\":\"p\\t\\n\\r\\u001f/é\"}";
    let name = Text::copied(alloc, "p\t\n\r\u{1f}/é")?;
    assert!(rt; is_shown(alloc, &names, Reply::Stored(name), want)?);
    let route = Reply::Route {
        dest: 3,
        budget: 9,
        lower: Grain::ZERO,
        upper: Grain::ONE,
        arcs: 2,
    };
    let want = "{\"arcs\":2,\"budget\":9,\"dest\":3,\"kind\":\"route\",\"lower\":0,\
        \"to\":\"Work\",\"upper\":1000000000000000000}";
    assert!(rt; is_shown(alloc, &names, route, want)?);
    let want = "{\"cause\":\"Place\",\"kind\":\"refused\",\"line\":1}";
    assert!(rt;
        is_shown(
            alloc,
            &names,
            refused(Text::copied(alloc, "Place")?, None),
            want
        )?
    );
    let want = "{\"cause\":\"TableCells\",\"count\":18446744073709551615,\"kind\":\"refused\",\
        \"line\":1}";
    let cause = Text::copied(alloc, "TableCells")?;
    assert!(rt; is_shown(alloc, &names, refused(cause, Some(u64::MAX)), want)?);
    Ok(())
}
