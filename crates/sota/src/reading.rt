// Reading to the end.
ghost use Rattle.std.specs.Prelude.{◌≡◌, ◌+◌, ◌≤◌, ◌<◌, length, take, drop, IfOk};
ghost use Rattle.std.specs.Io.KnownBytes.{Consumes, IsAtEnd};
ghost use Rattle.sota.specs.FileAnswer.{FileAnswer, IsFailure};

use crate::shortage::is_shortage;
use sota_edge::LoadError;
use std::alloc::Global;
use std::io;
use std::io::Read;

// The most bytes of a read.
const PIECE: usize = 65536;

/// Why nothing is read.
pub fn load_error(error: &io::Error) -> LoadError
    ensures { IsFailure result }
{
    if is_shortage(error) {
        LoadError::NoMemory
    } else {
        LoadError::Failed
    }
}

/// One read into the bytes from a place on.
fn read_at<R: Read>(reader: &mut R, bytes: &mut [u8], at: usize) -> io::Result<usize>
    requires { at < length bytes.old }
    ensures front { take at bytes.new ≡ take at bytes.old }
    ensures fits { IfOk result (λ count. at + count ≤ length bytes.new) }
    ensures read { IfOk result (λ count. Consumes (R.remaining reader.old) (R.remaining reader.new)
        (take count (drop at bytes.new))) }
    ensures end { IfOk result (λ count. count ≡ 0 → IsAtEnd (R.remaining reader.new)) }
{
    reader.read(&mut bytes[at..])
}

/// The bytes of a reader to its end, at most `limit`. Each turn reads a byte at least, or ends.
pub fn read_all<R: Read>(reader: &mut R, alloc: Global, limit: u32) -> Result<Vec<u8>, LoadError>
    ensures { FileAnswer (λ bytes. bytes.items) result (R.remaining reader.old) limit }
{
    let most = limit as usize + 1;
    let mut bytes = Vec::new(alloc);
    let mut done = 0;
    while done < most {
        let room = done + PIECE.min(most - done);
        if bytes.resize(room, 0).is_err() {
            return Err(LoadError::NoMemory);
        }
        match read_at(reader, &mut bytes, done) {
            Ok(0) => {
                bytes.truncate(done);
                return Ok(bytes);
            }
            Ok(count) => done += count,
            Err(error) => return Err(load_error(&error)),
        }
    }
    Err(LoadError::TooLong)
}
