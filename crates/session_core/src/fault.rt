// Why an end of a session refuses a frame.
ghost use Rattle.std.specs.Prelude.{◌≡◌};
ghost use Rattle.session_core.specs.declared.fault.VerifierFault.TheVariants as verifier;
ghost use Rattle.session_core.specs.declared.fault.ProverFault.TheVariants as prover;

use std::alloc::AllocError;
use thiserror::Error;

/// The digests by which a hello names a statement: of the circuit's text, of the claimed outputs and of the public bits.
#[derive(Clone, Copy, Debug, PartialEq, Eq)]
pub struct Digests {
    pub circuit: [u8; 32],
    pub outputs: [u8; 32],
    pub public: [u8; 32],
}

/// What differs first in a hello, with what was wanted and what came.
#[derive(Clone, Copy, Debug, PartialEq, Eq)]
pub enum HelloDiffers {
    /// The id of the dealt files.
    Id { want: [u8; 32], got: [u8; 32] },
    /// The version: the short form wants 1, the long form 2.
    Version { want: u8, got: u8 },
    /// The statement. A hello in the short form says that there are no public bits.
    Statement { want: Digests, got: Digests },
}

/// Why a verifier refuses a frame, or does not answer it.
#[derive(Clone, Copy, Debug, PartialEq, Eq, Error)]
pub enum VerifierFault {
    /// The hello is not one for the verifier's file and statement.
    #[error("the hello is not one for the file and the statement")]
    BadHello(HelloDiffers),
    /// Memory is missing.
    #[error("memory is missing")]
    NoMemory,
}

/// Why a prover refuses a frame, or does not answer it.
#[derive(Clone, Copy, Debug, PartialEq, Eq, Error)]
pub enum ProverFault {
    /// The grant's sections or units are not those of a session about the prover's statement.
    #[error("the grant is not one of a session about the statement")]
    BadGrant,
    /// The verifier refused, with this code, in place of a grant.
    #[error("the verifier refused with code {code}")]
    PeerRefused { code: u8 },
    /// Memory is missing.
    #[error("memory is missing")]
    NoMemory,
}

impl From<AllocError> for VerifierFault {
    ghost from_gives = { λ _ e. e ≡ verifier.NoMemory };

    fn from(_: AllocError) -> Self {
        VerifierFault::NoMemory
    }
}

impl From<AllocError> for ProverFault {
    ghost from_gives = { λ _ e. e ≡ prover.NoMemory };

    fn from(_: AllocError) -> Self {
        ProverFault::NoMemory
    }
}
