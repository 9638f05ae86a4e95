// Why a store of claims doesn't start.
ghost use Rattle.claim_store.specs.declared.fault.StoreFault.TheVariants as store;
ghost use Rattle.std.specs.Prelude.{◌≡◌};

use std::alloc::AllocFailed;
use thiserror::Error;
use twin_journal::StartFault;

/// Why a store of claims doesn't start.
#[derive(Clone, Copy, Debug, PartialEq, Eq, Error)]
pub enum StoreFault {
    /// The journal is not opened, or the span in a slot has a unit of an earlier one, which is `BadBody` too.
    #[error("{0}")]
    Journal(StartFault),
    /// No memory was left for the list of claims.
    #[error("memory is missing")]
    NoMemory,
}

impl<T: Drop> From<AllocFailed<T>> for StoreFault {
    ghost from_gives = { λ _ e. e ≡ store.NoMemory };

    fn from(_: AllocFailed<T>) -> Self {
        StoreFault::NoMemory
    }
}
