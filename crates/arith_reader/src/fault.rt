// Why a text is refused.
ghost use Rattle.std.specs.Prelude.{◌≡◌};
ghost use Rattle.arith_reader.specs.declared.fault.ReadError.TheVariants as error;

use std::alloc::AllocError;
use thiserror::Error;
use zk_model::ReadFault;

/// Why an arithmetic circuit's text is not read.
#[derive(Clone, Copy, Debug, PartialEq, Eq, Error)]
pub enum ReadError {
    /// The text is that of no circuit that is read, and this is its first fault.
    #[error("{0}")]
    Fault(ReadFault),
    /// Memory ran out.
    #[error("memory is missing")]
    NoMemory,
}

impl From<ReadFault> for ReadError {
    ghost from_gives = { λ fault e. e ≡ error.Fault fault };

    fn from(fault: ReadFault) -> Self {
        ReadError::Fault(fault)
    }
}

impl From<AllocError> for ReadError {
    ghost from_gives = { λ _ e. e ≡ error.NoMemory };

    fn from(_: AllocError) -> Self {
        ReadError::NoMemory
    }
}
