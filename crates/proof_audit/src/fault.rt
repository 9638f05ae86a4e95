// Why an audit finds nothing.
ghost use Rattle.std.specs.Prelude.{◌≡◌};
ghost use Rattle.proof_audit.specs.declared.fault.AuditFault.TheVariants.{NoMemory};

use std::alloc::AllocError;
use thiserror::Error;

/// Why an audit finds nothing.
#[derive(Clone, Copy, Debug, PartialEq, Eq, Error)]
pub enum AuditFault {
    /// Memory is missing.
    #[error("memory is missing")]
    NoMemory,
    /// The files are not of one dealing: the first unit in which a key does not fit its pair, or a pad is not the one that its bit
    /// names. It is unit 0 also where the ids, what the files were made for or the seeds of the code differ.
    #[error("the files are not of one dealing, from unit {unit} on")]
    NotDealt { unit: u64 },
    /// The byte at this place of the log, counted from its first, is one after which no frame can follow that belongs there, or the last
    /// of a hello, grant, reply, challenge or verdict that the files, the statement and the frames before do not give.
    #[error("the log has a fault at byte {place}")]
    LogFault { place: u64 },
}

impl From<AllocError> for AuditFault {
    ghost from_gives = { λ _ e. e ≡ NoMemory };

    fn from(_: AllocError) -> Self {
        AuditFault::NoMemory
    }
}
