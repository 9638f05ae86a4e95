// Why a text is refused.
ghost use Rattle.std.specs.Prelude.{◌≡◌};
ghost use Rattle.poly_text.specs.declared.fault.ReadError.TheVariants as error;

use std::alloc::{AllocError, AllocFailed};
use thiserror::Error;

/// A fault of a text of constraints, and the token that has it, counted from 0.
#[derive(Clone, Copy, Debug, PartialEq, Eq, Error)]
pub enum PolyFault {
    /// The text ends before this token.
    #[error("the text ends before token {token}")]
    ShortText { token: u64 },
    /// A number is needed, and the token has another byte than a digit.
    #[error("token {token} is no number")]
    BadNumber { token: u64 },
    /// A number of values, constraints, terms or factors is above its limit, or a coefficient is 2^61 - 1 or more.
    #[error("the number of token {token} is too large")]
    TooLarge { token: u64 },
    /// A factor is none of the values.
    #[error("there is no value of the number of token {token}")]
    VarRange { token: u64 },
    /// A token stands behind the last constraint.
    #[error("token {token} stands behind the last constraint")]
    ExtraText { token: u64 },
}

/// Why a text of constraints is not read.
#[derive(Clone, Copy, Debug, PartialEq, Eq, Error)]
pub enum ReadError {
    /// It has this fault first.
    #[error("{0}")]
    Fault(PolyFault),
    /// Memory ran out.
    #[error("memory is missing")]
    NoMemory,
}

impl From<PolyFault> for ReadError {
    ghost from_gives = { λ fault e. e ≡ error.Fault fault };

    fn from(fault: PolyFault) -> Self {
        ReadError::Fault(fault)
    }
}

impl From<AllocError> for ReadError {
    ghost from_gives = { λ _ e. e ≡ error.NoMemory };

    fn from(_: AllocError) -> Self {
        ReadError::NoMemory
    }
}

impl<T: Drop> From<AllocFailed<T>> for ReadError {
    ghost from_gives = { λ _ e. e ≡ error.NoMemory };

    fn from(_: AllocFailed<T>) -> Self {
        ReadError::NoMemory
    }
}
