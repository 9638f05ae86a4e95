// Why a verifier refuses a frame, or says none.
ghost use Rattle.std.specs.Prelude.{◌≡◌};
ghost use Rattle.claim_verifier.specs.declared.fault.VoiceFault.TheVariants.{NoMemory};

use lease_store::GrantFault;
use session_core::HelloDiffers;
use std::alloc::AllocError;
use thiserror::Error;

/// Why a verifier refuses a frame, or says none.
#[derive(Clone, Copy, Debug, PartialEq, Eq, Error)]
pub enum VoiceFault {
    /// The hello is not one for its claim and file.
    #[error("the hello is not one for the file and the claim")]
    BadHello(HelloDiffers),
    /// No units were leased.
    #[error("{0}")]
    Grant(GrantFault),
    /// Memory was missing.
    #[error("memory is missing")]
    NoMemory,
}

impl From<AllocError> for VoiceFault {
    ghost from_gives = { λ _ e. e ≡ NoMemory };

    fn from(_: AllocError) -> Self {
        VoiceFault::NoMemory
    }
}
