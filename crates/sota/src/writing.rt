// Writing whole texts, and pieces of them.
ghost use Rattle.std.specs.Prelude.{◌≡◌, ◌≤◌, ◌<◌, length, IfOk, OnOk};
ghost use Rattle.std.specs.Io.KnownBytes.{Appends};
ghost use Rattle.sota.specs.OutSink.{Hands};

use std::io;
use std::io::{ErrorKind, Write};

/// Writes all the bytes and flushes them. A write that takes none is a fault.
pub fn write_all<W: Write>(writer: &mut W, bytes: &[u8]) -> io::Result<()>
    ensures { OnOk result (Appends (W.contents writer.old) (W.contents writer.new) bytes.now) }
{
    let mut done = 0;
    while done < bytes.len() {
        match writer.write(&bytes[done..])? {
            0 => return Err(io::Error::from(ErrorKind::WriteZero)),
            count => done += count,
        }
    }
    writer.flush()
}

/// Writes the first bytes of the piece and flushes them. Answers how many.
pub fn write_piece<W: Write>(writer: &mut W, piece: &[u8]) -> io::Result<usize>
    ensures some { IfOk result (λ count. (count ≤ length piece.now)
        × (0 < length piece.now → 0 < count)) }
    ensures given { Hands result piece.now (W.contents writer.old) (W.contents writer.new) }
{
    let count = writer.write(piece)?;
    if count == 0 && !piece.is_empty() {
        return Err(io::Error::from(ErrorKind::WriteZero));
    }
    writer.flush()?;
    Ok(count)
}
