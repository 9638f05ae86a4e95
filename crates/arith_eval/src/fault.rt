// Why a circuit is not evaluated.
ghost use Rattle.std.specs.Prelude.{◌≡◌};
ghost use Rattle.arith_eval.specs.declared.fault.ArithEvalFault.TheVariants as fault;

use mersenne_field::Fe;
use std::alloc::AllocError;
use thiserror::Error;

/// Why an arithmetic circuit gives no outputs.
#[derive(Clone, Copy, Debug, PartialEq, Eq, Error)]
pub enum ArithEvalFault {
    /// The elements are not as many as the circuit's inputs: so many are needed, and so many were given.
    #[error("{got} elements in place of {need}")]
    WrongLength { need: usize, got: usize },
    /// The wire of this assertion, of which the first has the number 0, has this value, which is not 0; those of the
    /// assertions before it are 0.
    #[error("assertion {assert} is not met")]
    AssertFailed { assert: u32, value: Fe },
    /// Memory ran out.
    #[error("memory is missing")]
    NoMemory,
}

impl From<AllocError> for ArithEvalFault {
    ghost from_gives = { λ _ e. e ≡ fault.NoMemory };

    fn from(_: AllocError) -> Self {
        ArithEvalFault::NoMemory
    }
}
