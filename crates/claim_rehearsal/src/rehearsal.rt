// What a rehearsal of a session about a claim gives.
ghost use Rattle.std.specs.Prelude.{◌≡◌};
ghost use Rattle.claim_rehearsal.specs.declared.rehearsal.ClaimRehearseFault.TheVariants.{NoMemory};

use frame_link::Log;
use session_core::Judgement;
use std::alloc::AllocError;
use thiserror::Error;

/// What a rehearsal of a session about a claim gives.
#[derive(Debug, Drop)]
pub struct ClaimRehearsal {
    /// How many correlations the session takes.
    pub need: u64,
    /// How many units of its kind of files are dealt.
    pub units: u64,
    /// What the verifier finds.
    pub judgement: Judgement,
    /// All frames of both ends.
    pub log: Log,
}

/// Why there is no rehearsal.
#[derive(Clone, Copy, Debug, PartialEq, Eq, Error)]
pub enum ClaimRehearseFault {
    /// The session takes so many correlations, and so many units, which are more than 4,096.
    #[error("the session takes {need} correlations in {units} units")]
    TooLarge { need: u64, units: u64 },
    /// Memory was missing.
    #[error("memory is missing")]
    NoMemory,
}

impl From<AllocError> for ClaimRehearseFault {
    ghost from_gives = { λ _ e. e ≡ NoMemory };

    fn from(_: AllocError) -> Self {
        ClaimRehearseFault::NoMemory
    }
}
