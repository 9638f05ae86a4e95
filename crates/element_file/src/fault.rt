// Why a file of elements is refused.
ghost use Rattle.std.specs.Prelude.{◌≡◌};
ghost use Rattle.element_file.specs.declared.fault.ElementsError.TheVariants as error;

use std::alloc::AllocError;
use thiserror::Error;

/// A fault of a file of elements.
#[derive(Clone, Copy, Debug, PartialEq, Eq, Error)]
pub enum ElementsFault {
    /// The first token, counted from 0, that is no element: it has another byte than a digit, or its number is 2^61 - 1 or more.
    #[error("token {token} is no element")]
    BadValue { token: u64 },
    /// Each token is an element, but there are `got` in place of `need`.
    #[error("{got} elements in place of {need}")]
    Count { need: u64, got: u64 },
}

/// Why a file of elements is not read.
#[derive(Clone, Copy, Debug, PartialEq, Eq, Error)]
pub enum ElementsError {
    /// Memory ran out.
    #[error("memory is missing")]
    NoMemory,
    /// It has this fault.
    #[error("{0}")]
    Fault(ElementsFault),
}

impl From<AllocError> for ElementsError {
    ghost from_gives = { λ _ e. e ≡ error.NoMemory };

    fn from(_: AllocError) -> Self {
        ElementsError::NoMemory
    }
}

impl From<ElementsFault> for ElementsError {
    ghost from_gives = { λ fault e. e ≡ error.Fault fault };

    fn from(fault: ElementsFault) -> Self {
        ElementsError::Fault(fault)
    }
}
