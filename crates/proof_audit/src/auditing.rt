// The finding of a log.
ghost use Rattle.std.specs.Prelude.{◌≡◌, ◌^◌, length, IfErr, IfOk};
ghost use Rattle.zk_model.specs.ServedVerifier.{VerifierTask};
ghost use Rattle.proof_audit.specs.Audits.{IsAudited, FileGives, AuditFinds, AuditCause, Fits, audit_task};
ghost use Rattle.proof_audit.specs.Stages.{transcript_read};
ghost use Rattle.proof_audit.specs.declared.fault.AuditFault.TheVariants as causes;

use crate::fault::AuditFault;
use crate::judge::Judge;
use crate::log::read_session;
use crate::pairs::seen_pairs;
use crate::search::{first_wrong_output, first_wrong_section};
use crate::seen::{SeenWires, corrected_values};
use crate::session::Session;
use check_findings::Finding;
use dealer_files::{NotDealt, ProverFile, VerifierFile, dealt};
use session_core::Statement;
use std::alloc::{AllocError, Global};

impl From<NotDealt> for AuditFault {
    ghost from_gives = { λ fault e. e ≡ causes.NotDealt fault.unit };

    fn from(fault: NotDealt) -> Self {
        AuditFault::NotDealt { unit: fault.unit }
    }
}

/// What the prover's file and an accepted session about this statement give: by the first section with an error, or else by the first
/// opened wire that is not as claimed, or else by the inputs.
fn session_finding(
    alloc: Global,
    statement: &Statement<'_>,
    prover: &ProverFile,
    verifier: &VerifierFile,
    session: &Session,
) -> Result<Finding, AllocError>
    requires audited { (task : VerifierTask) × (task.statement ≡ statement.now)
        × IsAudited prover.now task session.now × (task.file ≡ verifier.now) }
    ensures { IfOk result (λ finding. (task : VerifierTask) → task.statement ≡ statement.now
        → (audited : IsAudited prover.now task session.now)
        → FileGives prover.now task.statement
        (transcript_read task audited.greeting session.now 0 0) finding) }
{
    let held = seen_pairs(alloc, prover, verifier, session)?;
    let pairs = held.as_slice();
    let wires = SeenWires::see(alloc, statement, pairs, &session.corrections)?;
    let _products = wires.program().products();
    let of_section = first_wrong_section(alloc, &wires, pairs, session)?;
    if let Some(finding) = of_section {
        return Ok(finding);
    }
    let of_output = first_wrong_output(alloc, &wires, session, statement.claims())?;
    if let Some(finding) = of_output {
        return Ok(finding);
    }
    let count = wires.program().inputs();
    let inputs = corrected_values(alloc, pairs, &session.corrections, count)?;
    Ok(Finding::Inputs(inputs))
}

/// What the log of a session proves about a statement, given both dealt files: the private inputs, or a polynomial that had to have the
/// challenge or the key as a root, or that no session was accepted (Weng, Yang, Katz and Wang, Wolverine, IEEE S&P 2021; Yang, Sarkar, Weng
/// and Wang, QuickSilver, ACM CCS 2021).
///
/// # Errors
///
/// `NotDealt` where the files are not of one dealing, `LogFault` where the log has a fault, `NoMemory`.
pub fn audit(
    alloc: Global,
    statement: &Statement<'_>,
    prover: &ProverFile,
    verifier: &VerifierFile,
    log: &[u8],
) -> Result<Finding, AuditFault>
    ensures finding { IfOk result (AuditFinds (Fits statement.now) prover.now
        (audit_task statement.now verifier.now) log.now) }
    ensures fault { IfErr result (AuditCause prover.now (audit_task statement.now verifier.now) log.now) }
{
    let _prover = prover.total();
    let _verifier = verifier.total();
    dealt(prover, verifier)?;
    let judge = Judge::new(statement, verifier);
    let Some(session) = read_session(alloc, &judge, log)? else {
        return Ok(Finding::NotAccepted);
    };
    let finding = session_finding(alloc, statement, prover, verifier, &session)?;
    Ok(finding)
}
