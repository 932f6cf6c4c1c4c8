// The desks and sinks in memory: what is planned to fail, and pieces that are taken byte by byte.
ghost use Rattle.std.specs.Prelude.{◌≤◌};

use crate::{
    Desk, LoadError, MemoryDesk, MemorySink, SinkError, StoreError, SureDesk, SureSink, put_all,
};
use std::alloc::Global;
use std::test::Fail;

/// Whether a load answers so.
fn loads<D: Desk>(
    desk: &mut D,
    alloc: Global,
    name: &str,
    limit: u32,
    wanted: Result<&[u8], LoadError>,
) -> bool {
    match (desk.load(alloc, name, limit), wanted) {
        (Ok(bytes), Ok(wanted)) => bytes.as_slice() == wanted,
        (Err(error), Err(wanted)) => error == wanted,
        _ => false,
    }
}

#[test]
fn calls_of_a_desk_fail_as_planned(rt: HostRuntime) -> Result<(), Fail> {
    let alloc = rt.alloc();
    let mut desk = MemoryDesk::new(alloc, [2, 5].to_vec(alloc)?);
    desk.insert("a", b"abc".to_vec(alloc)?)?;
    assert!(rt; loads(&mut desk, alloc, "a", 3, Ok(b"abc")));
    assert!(rt; loads(&mut desk, alloc, "a", 3, Err(LoadError::Failed)));
    assert!(rt; loads(&mut desk, alloc, "a", 2, Err(LoadError::TooLong)));
    assert!(rt; loads(&mut desk, alloc, "b", 3, Err(LoadError::Missing)));
    assert!(rt; desk.store(alloc, "b", b"first") == Err(StoreError::Failed));
    assert!(rt; desk.store(alloc, "b", b"second") == Ok(()));
    assert!(rt; desk.held("a") == Some(b"abc".as_slice()));
    assert!(rt; desk.held("b") == Some(b"second".as_slice()));
    assert!(rt; desk.held("") == None);
    Ok(())
}

#[test]
fn a_sure_desk_never_fails(rt: HostRuntime) -> Result<(), Fail> {
    let alloc = rt.alloc();
    let mut desk = SureDesk::new(alloc);
    desk.insert("a", b"abc".to_vec(alloc)?)?;
    assert!(rt; desk.store(alloc, "a", b"") == Ok(()));
    assert!(rt; desk.store(alloc, "", b"nameless") == Ok(()));
    assert!(rt; loads(&mut desk, alloc, "a", 0, Ok(b"")));
    assert!(rt; loads(&mut desk, alloc, "", 8, Ok(b"nameless")));
    assert!(rt; loads(&mut desk, alloc, "", 7, Err(LoadError::TooLong)));
    assert!(rt; loads(&mut desk, alloc, "c", 0, Err(LoadError::Missing)));
    assert!(rt; desk.held("a") == Some(b"".as_slice()));
    Ok(())
}

/// Whether putting `abcde` answers so, at most `chunk` bytes at a time, and leaves this written.
/// One put fails.
fn puts(
    alloc: Global,
    chunk: u32,
    fails: u32,
    answer: Result<(), SinkError>,
    written: &[u8],
) -> Result<bool, Fail>
    requires { 1 ≤ chunk }
{
    let mut out = MemorySink::new(alloc, chunk, [fails].to_vec(alloc)?);
    Ok(put_all(&mut out, b"abcde") == answer && out.written() == written)
}

#[test]
fn pieces_are_put_until_a_put_fails(rt: HostRuntime) -> Result<(), Fail> {
    let alloc = rt.alloc();
    assert!(rt; puts(alloc, 1, 1, Err(SinkError::Failed), b"")?);
    assert!(rt; puts(alloc, 1, 3, Err(SinkError::Failed), b"ab")?);
    assert!(rt; puts(alloc, 1, 6, Ok(()), b"abcde")?);
    assert!(rt; puts(alloc, 2, 3, Err(SinkError::Failed), b"abcd")?);
    assert!(rt; puts(alloc, 5, 2, Ok(()), b"abcde")?);
    let mut out = SureSink::new(alloc);
    assert!(rt; put_all(&mut out, b"ab") == Ok(()));
    assert!(rt; put_all(&mut out, b"") == Ok(()));
    assert!(rt; put_all(&mut out, b"c") == Ok(()));
    assert!(rt; out.written() == b"abc".as_slice());
    Ok(())
}
