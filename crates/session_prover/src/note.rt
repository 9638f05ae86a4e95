// What came of a session at the prover.
ghost use Rattle.std.specs.Prelude.{◌≡◌};
ghost use Rattle.session_prover.specs.Outcomes.{claim_outcome, prover_line_outcome, prover_fault_outcome};

use claim_store::ClaimFault;
use frame_link::{LineFault, Log};
use session_core::ProverFault;
use zk_model::Span;

/// How a session ended for the prover.
#[derive(Clone, Copy, Debug, PartialEq, Eq)]
pub enum ProverOutcome {
    /// The verdict was read, and its code is 0.
    Accepted,
    /// The verdict was read, and its code is another.
    Rejected { code: u8, number: u32 },
    /// The peer ended when so many bytes had come from it, and more were wanted.
    PeerEnded { at: u64 },
    /// The peer's byte at this place is the first after which no frame that is expected can follow.
    BadFrame { place: u64 },
    /// The grant is not one of a session about the statement.
    BadGrant,
    /// The peer refused the session.
    PeerRefused { code: u8 },
    /// A call of the journal's disk failed before: then its count of faults was this.
    Broken { first: u64 },
    /// The granted units end above the total.
    OutOfRange { total: u64 },
    /// This earlier claim has a unit of the grant.
    Overlap { earlier: Span },
    /// All slots of the journal are in use.
    Full { slots: u64 },
    /// A call of the journal's disk failed.
    Device,
    /// A call of the link failed.
    Link,
    /// Memory was missing.
    NoMemory,
}

impl From<ClaimFault> for ProverOutcome {
    ghost from_gives = { λ fault o. o ≡ claim_outcome fault };

    fn from(fault: ClaimFault) -> Self {
        match fault {
            ClaimFault::Broken { first } => ProverOutcome::Broken { first },
            ClaimFault::OutOfRange { total } => ProverOutcome::OutOfRange { total },
            ClaimFault::Overlap { earlier } => ProverOutcome::Overlap { earlier },
            ClaimFault::Full { slots } => ProverOutcome::Full { slots },
            ClaimFault::Device => ProverOutcome::Device,
            ClaimFault::NoMemory => ProverOutcome::NoMemory,
        }
    }
}

impl From<LineFault> for ProverOutcome {
    ghost from_gives = { λ fault o. o ≡ prover_line_outcome fault };

    fn from(fault: LineFault) -> Self {
        match fault {
            LineFault::PeerEnded { at } => ProverOutcome::PeerEnded { at },
            LineFault::BadFrame { place } => ProverOutcome::BadFrame { place },
            LineFault::Link => ProverOutcome::Link,
            LineFault::NoMemory => ProverOutcome::NoMemory,
        }
    }
}

impl From<ProverFault> for ProverOutcome {
    ghost from_gives = { λ fault o. o ≡ prover_fault_outcome fault };

    fn from(fault: ProverFault) -> Self {
        match fault {
            ProverFault::BadGrant => ProverOutcome::BadGrant,
            ProverFault::PeerRefused { code } => ProverOutcome::PeerRefused { code },
            ProverFault::NoMemory => ProverOutcome::NoMemory,
        }
    }
}

/// What came of a session: the units that were granted and claimed, if any were; how it ended; all frames that passed; and
/// the link.
#[derive(Drop)]
pub struct ProverNote<L> {
    pub granted: Option<Span>,
    pub outcome: ProverOutcome,
    pub log: Log,
    pub link: L,
}
