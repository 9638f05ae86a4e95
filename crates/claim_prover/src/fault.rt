// Why a prover refuses a frame, or says none.
ghost use Rattle.std.specs.Prelude.{◌≡◌};
ghost use Rattle.claim_prover.specs.declared.fault.ProvingFault.TheVariants.{NoMemory};

use claim_store::ClaimFault;
use std::alloc::AllocError;

/// Why a prover refuses a frame, or says none.
#[derive(Clone, Copy, Debug, PartialEq, Eq)]
pub enum ProvingFault {
    /// The grant's sections or units are not those of a session about its claim.
    BadGrant,
    /// The verifier refused, with this code, in place of a grant.
    PeerRefused { code: u8 },
    /// The units of the grant were not claimed.
    Claim(ClaimFault),
    /// Memory was missing.
    NoMemory,
}

impl From<AllocError> for ProvingFault {
    ghost from_gives = { λ _ e. e ≡ NoMemory };

    fn from(_: AllocError) -> Self {
        ProvingFault::NoMemory
    }
}
