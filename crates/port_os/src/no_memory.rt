// Want of memory among the errors of the system.
ghost use Rattle.std.specs.Prelude.{◌≡◌, ◌↔◌, IsTrue};
ghost use Rattle.std.specs.IoError.{error_kind};
ghost use Rattle.std.specs.declared.io.ErrorKind.TheVariants.{OutOfMemory};

use std::io;
use std::io::ErrorKind;

/// Whether the error is want of memory.
pub fn found_no_memory(error: &io::Error) -> bool
    ensures { IsTrue result ↔ (error_kind error.now ≡ OutOfMemory) }
{
    error.kind() == ErrorKind::OutOfMemory
}
