// What a rehearsal gives.
ghost use Rattle.std.specs.Prelude.{◌≡◌};
ghost use Rattle.session_rehearsal.specs.declared.rehearsal.RehearseFault.TheVariants.{NoMemory};
ghost use Rattle.session_rehearsal.specs.declared.rehearsal.ArithRehearseFault.TheVariants as arith;

use frame_link::Log;
use mersenne_field::Fe;
use std::alloc::AllocError;
use thiserror::Error;
use zk_model::Verdict;

/// What a rehearsal gives, of a circuit whose outputs are an `O`: bits or elements.
#[derive(Debug, Drop)]
pub struct Rehearsal<O> {
    /// What the circuit gives, and the prover claims.
    pub outputs: O,
    /// How many products are checked.
    pub products: u64,
    /// How many sections they make.
    pub sections: u64,
    /// How many correlations these take: one for each given value and each section.
    pub need: u64,
    /// How many units of its kind of files are dealt.
    pub units: u64,
    /// What the verifier says in the end.
    pub verdict: Verdict,
    /// All frames of both ends.
    pub log: Log,
}

/// Why there is no rehearsal.
#[derive(Clone, Copy, Debug, PartialEq, Eq, Error)]
pub enum RehearseFault {
    /// The bits are not as many as the circuit's private inputs: so many are needed, and so many were given.
    #[error("{got} bits in place of {need}")]
    WrongLength { need: u64, got: u64 },
    /// The session takes so many correlations, and so many units, which are more than 4,096.
    #[error("the session takes {need} correlations in {units} units")]
    TooLarge { need: u64, units: u64 },
    /// Memory was missing.
    #[error("memory is missing")]
    NoMemory,
}

impl From<AllocError> for RehearseFault {
    ghost from_gives = { λ _ e. e ≡ NoMemory };

    fn from(_: AllocError) -> Self {
        RehearseFault::NoMemory
    }
}

/// Why there is no rehearsal of an arithmetic circuit.
#[derive(Clone, Copy, Debug, PartialEq, Eq, Error)]
pub enum ArithRehearseFault {
    /// The values are not as many as the circuit's inputs: so many are needed, and so many were given.
    #[error("{got} values in place of {need}")]
    WrongLength { need: u64, got: u64 },
    /// The wire of this assertion, the first of its kind, has this value, which is not 0.
    #[error("assertion {assert} is not met")]
    AssertFailed { assert: u32, value: Fe },
    /// The session takes so many correlations, and so many units, which are more than 4,096.
    #[error("the session takes {need} correlations in {units} units")]
    TooLarge { need: u64, units: u64 },
    /// Memory was missing.
    #[error("memory is missing")]
    NoMemory,
}

impl From<AllocError> for ArithRehearseFault {
    ghost from_gives = { λ _ e. e ≡ arith.NoMemory };

    fn from(_: AllocError) -> Self {
        ArithRehearseFault::NoMemory
    }
}
