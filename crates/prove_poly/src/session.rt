// A prover's session over a link, and its note.
ghost use Rattle.std.specs.Prelude.{◌≡◌, ◌≤◌, None, Some, IsSomeAnd, MatchOption};
ghost use Rattle.zk_port.specs.Doors.{IsFreshLink};
ghost use Rattle.session_prover.specs.Notes.{granted_of};
ghost use Rattle.session_prover.specs.Outcomes.{verdict_outcome};
ghost use Rattle.session_prover.specs.Stores.{StoreClaims};
ghost use Rattle.claim_prover.specs.Telling.{knowledge_of};
ghost use Rattle.prove_poly.specs.PolyNotes.{IsClaimSession, end_outcome, fault_outcome, stop_outcome};

use claim_prover::{ProverEnd, ProvingFault, Witness, prove_claim};
use claim_store::ClaimFault;
use dealer_files::ProverFile;
use frame_link::Line;
use session_prover::{ProverNote, ProverOutcome, StoreClaimant};
use session_script::EndFault;
use std::alloc::Global;
use std::thread::Threads;
use zk_model::{Side, Span};
use zk_port::{Disk, Link};

/// The units that were claimed, by what was answered.
fn granted_in(answer: &Option<Result<Span, ClaimFault>>) -> Option<Span>
    ensures { result ≡ granted_of answer.now }
{
    match answer {
        Some(Ok(span)) => Some(*span),
        Some(Err(_)) => None,
        None => None,
    }
}

/// What a verdict says.
fn verdict_of(code: u8, number: u32) -> ProverOutcome
    ensures { result ≡ verdict_outcome code number }
{
    match code {
        0 => ProverOutcome::Accepted,
        _ => ProverOutcome::Rejected { code, number },
    }
}

/// What it says that a frame was refused, or not answered.
fn fault_of(fault: ProvingFault) -> ProverOutcome
    ensures { result ≡ fault_outcome fault }
{
    match fault {
        ProvingFault::BadGrant => ProverOutcome::BadGrant,
        ProvingFault::PeerRefused { code } => ProverOutcome::PeerRefused { code },
        ProvingFault::Claim(cause) => ProverOutcome::from(cause),
        ProvingFault::NoMemory => ProverOutcome::NoMemory,
    }
}

/// What it says that an end stopped.
fn stop_of(fault: EndFault<ProvingFault>) -> ProverOutcome
    ensures { result ≡ stop_outcome fault }
{
    match fault {
        EndFault::OfVoice { fault } => fault_of(fault),
        EndFault::NoMemory => ProverOutcome::NoMemory,
    }
}

/// How a session ended, in its note.
fn outcome_of(end: ProverEnd) -> ProverOutcome
    ensures { result ≡ end_outcome end }
{
    match end {
        ProverEnd::Said { code, number } => verdict_of(code, number),
        ProverEnd::Refused { fault } => stop_of(fault),
        ProverEnd::Cut { fault } => ProverOutcome::from(fault),
    }
}

/// Holds a session with the verifier at the other end of a link, with units of a store, and notes it. The stream is ended, whatever came of
/// it.
pub(crate) fn hold_session<'a, R: Threads + Sync, W: Witness, B: Disk, L: Link>(
    rt: &R,
    alloc: Global,
    witness: &'a W,
    file: &'a ProverFile,
    claimant: &mut StoreClaimant<B>,
    link: L,
) -> ProverNote<L>
    requires fresh { IsFreshLink (L.state link) }
    requires unasked { claimant.old.asked ≡ None }
    requires unanswered { claimant.old.answer ≡ None }
    requires total { claimant.old.store.total ≤ file.now.params.total }
    ensures notes { IsClaimSession
        (knowledge_of (W.claim witness.now) (W.said witness.now) (W.given witness.now) (W.replying witness.now)) file.now
        (record { asked = claimant.new.asked; answer = claimant.new.answer })
        result.granted result.outcome result.log (L.state result.link) }
    ensures moved { MatchOption claimant.new.answer (claimant.new ≡ claimant.old)
        (λ answer. IsSomeAnd claimant.new.asked
        (λ units. StoreClaims B.state claimant.old.store units.0 units.1 answer claimant.new.store)) }
{
    let mut line = Line::new(alloc, link, Side::Prover);
    let end = prove_claim(rt, alloc, witness, file, claimant, &mut line);
    let granted = granted_in(&claimant.answer);
    let (link, log) = line.end();
    ProverNote {
        granted,
        outcome: outcome_of(end),
        log,
        link,
    }
}
