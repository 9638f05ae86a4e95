// Why a check along a walk ends.
ghost use Rattle.std.specs.Prelude.{◌≡◌};
ghost use Rattle.mult_check.specs.declared.fault.StreamFault.TheVariants as stream;

use crate::sections::Differs;
use std::alloc::AllocError;
use thiserror::Error;

/// Why a check along a walk does not end well.
#[derive(Clone, Copy, Debug, PartialEq, Eq, Error)]
pub enum StreamFault {
    /// The equation of a section fails.
    #[error("{0}")]
    Differs(Differs),
    /// Memory is missing.
    #[error("memory is missing")]
    NoMemory,
}

impl From<Differs> for StreamFault {
    ghost from_gives = { λ differs e. e ≡ stream.Differs differs };

    fn from(differs: Differs) -> Self {
        StreamFault::Differs(differs)
    }
}

impl From<AllocError> for StreamFault {
    ghost from_gives = { λ _ e. e ≡ stream.NoMemory };

    fn from(_: AllocError) -> Self {
        StreamFault::NoMemory
    }
}
