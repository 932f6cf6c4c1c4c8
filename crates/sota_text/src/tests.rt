// Examples from outside the definitions.
ghost use Rattle.std.specs.Prelude.{◌<◌, ◌^◌, length};

use crate::{Fields, Lines, TextOut, read_u32};
use sota_units::NoMemory;
use std::alloc::Global;
use std::test::Fail;

/// The lines, each after its number.
fn show_lines(alloc: Global, text: &[u8]) -> Result<TextOut, NoMemory>
    requires { length text.now < 2 ^ 32 }
{
    let mut shown = TextOut::new(alloc);
    for line in Lines::new(text) {
        shown.number(u128::from(line.number))?;
        shown.bytes(b":")?;
        shown.bytes(text.get(line.span.from..line.span.to).unwrap_or(b"?"))?;
        shown.bytes(b"|")?;
    }
    Ok(shown)
}

/// The fields of a line.
fn show_fields(alloc: Global, line: &[u8]) -> Result<TextOut, NoMemory> {
    let mut shown = TextOut::new(alloc);
    for field in Fields::new(line) {
        shown.bytes(line.get(field.from..field.to).unwrap_or(b"?"))?;
        shown.bytes(b"|")?;
    }
    Ok(shown)
}

#[test]
fn lines_and_fields(rt: HostRuntime) -> Result<(), Fail> {
    let texts = [
        ("", ""),
        ("\n", "1:|"),
        ("a\nb", "1:a|2:b|"),
        ("a\r\nb\r\n", "1:a|2:b|"),
        ("a\n\n b\n", "1:a|2:|3: b|"),
        ("x\r\r\n", "1:x\r|"),
        ("x\r\r", "1:x\r|"),
        ("\r\r\n\r", "1:\r|2:|"),
        ("a\rb\n\r\n", "1:a\rb|2:|"),
    ];
    for (text, want) in texts {
        let bytes = text.as_bytes();
        assert!(rt; bytes.len() < 100);
        assert_eq!(rt;
            show_lines(rt.alloc(), bytes)?.as_bytes(),
            want.as_bytes(),
            "{want}"
        );
    }
    let lines = [
        ("", ""),
        (" \t", ""),
        ("a", "a|"),
        ("a b", "a|b|"),
        ("\t ab\t\tc d ", "ab|c|d|"),
        ("a\rb\u{b}c", "a\rb\u{b}c|"),
    ];
    for (line, want) in lines {
        assert_eq!(rt;
            show_fields(rt.alloc(), line.as_bytes())?.as_bytes(),
            want.as_bytes(),
            "{want}"
        );
    }
    Ok(())
}

#[test]
fn numbers(rt: HostRuntime) -> Result<(), Fail> {
    let texts = [
        ("007", Some(7)),
        ("4294967295", Some(u32::MAX)),
        ("4294967296", None),
        ("00000000000000000000010", Some(10)),
        ("", None),
        ("+1", None),
        ("1\r", None),
        ("1 ", None),
    ];
    for (text, want) in texts {
        assert_eq!(rt; read_u32(text.as_bytes()), want, "{text}");
    }
    let mut shown = TextOut::new(rt.alloc());
    shown.number(u128::MAX)?;
    assert_eq!(rt;
        shown.as_bytes(),
        b"340282366920938463463374607431768211455".as_slice()
    );
    shown.clear();
    shown.number(0)?;
    assert_eq!(rt; shown.into_vec().as_slice(), b"0".as_slice());
    Ok(())
}
