// Want of memory among the errors of the system.
ghost use Rattle.std.specs.Prelude.{◌≡◌, Decides};
ghost use Rattle.std.specs.IoError.{error_kind};

use std::io;
use std::io::ErrorKind;

/// Whether the error is want of memory, which is no fault of a file.
pub fn is_shortage(error: &io::Error) -> bool
    ensures { Decides result (error_kind error.now ≡ ErrorKind.OutOfMemory) }
{
    error.kind() == ErrorKind::OutOfMemory
}
