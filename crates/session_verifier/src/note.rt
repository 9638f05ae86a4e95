// What came of a session at the verifier.
ghost use Rattle.std.specs.Prelude.{◌≡◌};
ghost use Rattle.session_verifier.specs.Outcomes.{grant_outcome, verifier_line_outcome, verifier_fault_outcome, judgement_outcome};

use broker_links::Try;
use frame_link::{LineFault, Log};
use lease_store::{GrantFault, LeaseFault};
use mersenne_field::Fe;
use session_core::{HelloDiffers, Judgement, VerifierFault};
use zk_model::Span;

/// How a session ended for the verifier.
#[derive(Clone, Copy, Debug, PartialEq, Eq)]
pub enum VerifierOutcome {
    /// Every check holds, and the verdict was sent.
    Accepted,
    /// The sums of this section are the first that fail, with both sides of their equation; the verdict was sent.
    RejectedSum { section: u32, left: Fe, right: Fe },
    /// All sections hold, and the MAC of this opened wire is the first that fails; the verdict was sent.
    RejectedOpening { output: u32, left: Fe, right: Fe },
    /// The peer ended when so many bytes had come from it, and more were wanted.
    PeerEnded { at: u64 },
    /// The peer's byte at this place is the first after which no frame that is expected can follow.
    BadFrame { place: u64 },
    /// The hello is not one for the verifier's file and statement.
    BadHello(HelloDiffers),
    /// The units that the session takes, from here on, would end above the total.
    Exhausted { at: u64, count: u32, total: u64 },
    /// A call of the journal's disk failed.
    Device,
    /// A call of the journal's disk failed before.
    Broken { first: u64 },
    /// So many wants to the broker brought no block with enough units.
    NoBlock { wants: u32 },
    /// The broker was not reached, or a link to it failed.
    Broker,
    /// A call of the link failed.
    Link,
    /// Memory was missing.
    NoMemory,
}

impl From<GrantFault> for VerifierOutcome {
    ghost from_gives = { λ fault o. o ≡ grant_outcome fault };

    fn from(fault: GrantFault) -> Self {
        match fault {
            GrantFault::Lease(LeaseFault::Exhausted { at, count, total }) => {
                VerifierOutcome::Exhausted { at, count, total }
            }
            GrantFault::Lease(LeaseFault::Device) => VerifierOutcome::Device,
            GrantFault::Lease(LeaseFault::Broken { first }) => VerifierOutcome::Broken { first },
            GrantFault::NoMemory => VerifierOutcome::NoMemory,
            GrantFault::NoBlock { wants } => VerifierOutcome::NoBlock { wants },
            GrantFault::Broker => VerifierOutcome::Broker,
        }
    }
}

impl From<LineFault> for VerifierOutcome {
    ghost from_gives = { λ fault o. o ≡ verifier_line_outcome fault };

    fn from(fault: LineFault) -> Self {
        match fault {
            LineFault::PeerEnded { at } => VerifierOutcome::PeerEnded { at },
            LineFault::BadFrame { place } => VerifierOutcome::BadFrame { place },
            LineFault::Link => VerifierOutcome::Link,
            LineFault::NoMemory => VerifierOutcome::NoMemory,
        }
    }
}

impl From<VerifierFault> for VerifierOutcome {
    ghost from_gives = { λ fault o. o ≡ verifier_fault_outcome fault };

    fn from(fault: VerifierFault) -> Self {
        match fault {
            VerifierFault::BadHello(differs) => VerifierOutcome::BadHello(differs),
            VerifierFault::NoMemory => VerifierOutcome::NoMemory,
        }
    }
}

impl From<Judgement> for VerifierOutcome {
    ghost from_gives = { λ judgement o. o ≡ judgement_outcome judgement };

    fn from(judgement: Judgement) -> Self {
        match judgement {
            Judgement::Accepted => VerifierOutcome::Accepted,
            Judgement::RejectedSum {
                section,
                left,
                right,
            } => VerifierOutcome::RejectedSum {
                section,
                left,
                right,
            },
            Judgement::RejectedOpening {
                output,
                left,
                right,
            } => VerifierOutcome::RejectedOpening {
                output,
                left,
                right,
            },
        }
    }
}

/// What came of a session: the number of the statement that it was about, counted from 0, once a hello was taken; the units that were
/// granted, if any were; how it ended; all frames that passed; the link; and the tries that were made to get its units of a broker, in
/// order, where a node granted them.
#[derive(Drop)]
pub struct SessionNote<L> {
    pub statement: Option<u32>,
    pub granted: Option<Span>,
    pub outcome: VerifierOutcome,
    pub log: Log,
    pub link: L,
    pub tries: Vec<Try<L>>,
}
