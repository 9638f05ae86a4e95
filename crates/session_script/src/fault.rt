// Why an end of a session stops.
ghost use Rattle.std.specs.Prelude.{◌≡◌};
ghost use Rattle.session_script.specs.declared.fault.EndFault.TheVariants.{NoMemory};

use std::alloc::AllocError;

/// Why an end of a session refuses a frame, or does not answer it.
#[derive(Debug, Drop)]
pub enum EndFault<F> {
    /// Its voice refuses the frame, or says none at its own place.
    OfVoice { fault: F },
    NoMemory,
}

impl<F> From<AllocError> for EndFault<F> {
    ghost from_gives = { λ _ e. e ≡ NoMemory };

    fn from(_: AllocError) -> Self {
        EndFault::NoMemory
    }
}
