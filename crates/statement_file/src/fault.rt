// Why a file of statements is refused.
ghost use Rattle.std.specs.Prelude.{◌≡◌};
ghost use Rattle.statement_file.specs.declared.fault.StatementError.TheVariants as error;

use std::alloc::AllocError;
use thiserror::Error;

/// A fault of a file of statements.
#[derive(Clone, Copy, Debug, PartialEq, Eq, Error)]
pub enum StatementFault {
    /// The first line, counted from 0, that names no claim: it is not three words with one space between, or the second or the third
    /// is no word of bits.
    #[error("line {line} is no statement")]
    BadLine { line: u64 },
    /// Each line names a claim, but there are none, or more than 256.
    #[error("{lines} statements")]
    Count { lines: u64 },
}

/// Why a file of statements is not read.
#[derive(Clone, Copy, Debug, PartialEq, Eq, Error)]
pub enum StatementError {
    /// Memory ran out.
    #[error("memory is missing")]
    NoMemory,
    /// It has this fault.
    #[error("{0}")]
    Fault(StatementFault),
}

impl From<AllocError> for StatementError {
    ghost from_gives = { λ _ e. e ≡ error.NoMemory };

    fn from(_: AllocError) -> Self {
        StatementError::NoMemory
    }
}
