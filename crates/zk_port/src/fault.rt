// The faults of the outside.
ghost use Rattle.zk_port.specs.declared.fault.PortFault.TheVariants as port;
ghost use Rattle.zk_port.specs.declared.fault.LoadFault.TheVariants as load;
ghost use Rattle.std.specs.Prelude.{◌≡◌};

use std::alloc::{AllocError, AllocFailed};
use thiserror::Error;

/// A call of a disk failed, and its count of faults rose in that call.
#[derive(Clone, Copy, Debug, PartialEq, Eq, Error)]
#[error("a call of the disk failed")]
pub struct Failed;

/// Why a call of the outside was refused.
#[derive(Clone, Copy, Debug, PartialEq, Eq, Error)]
pub enum PortFault {
    /// The outside failed: the object's count of faults rose in this call.
    #[error("the outside failed")]
    Failed,
    /// The call found no memory; nothing is said of the outside.
    #[error("memory is missing")]
    NoMemory,
}

/// Why a file could not be loaded.
#[derive(Clone, Copy, Debug, PartialEq, Eq, Error)]
pub enum LoadFault {
    /// The outside failed, or there is no such file: the shelf's count of faults rose in this call.
    #[error("the file could not be loaded")]
    Failed,
    /// The call found no memory for the file.
    #[error("memory is missing")]
    NoMemory,
    /// The file has more bytes than `limit`, which is that of the call.
    #[error("the file has more than {limit} bytes")]
    TooLong { limit: u64 },
}

impl From<AllocError> for PortFault {
    ghost from_gives = { λ _ e. e ≡ port.NoMemory };

    fn from(_: AllocError) -> Self {
        PortFault::NoMemory
    }
}

impl<T: Drop> From<AllocFailed<T>> for PortFault {
    ghost from_gives = { λ _ e. e ≡ port.NoMemory };

    fn from(_: AllocFailed<T>) -> Self {
        PortFault::NoMemory
    }
}

impl From<AllocError> for LoadFault {
    ghost from_gives = { λ _ e. e ≡ load.NoMemory };

    fn from(_: AllocError) -> Self {
        LoadFault::NoMemory
    }
}
