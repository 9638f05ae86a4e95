// `audit CIRCUIT OUTPUTS PROVERFILE VERIFIERFILE LOG [--public BITS]`, and `audit-arith`.
ghost use Rattle.std.specs.Prelude.{◌≡◌, ◌++◌, codes, map, nat_eq, IfOk, IfErr, OnOk, string_bytes};
ghost use Rattle.std.specs.Fmt.{decimal};
ghost use Rattle.zk_port.specs.Changes.{change};
ghost use Rattle.command_words.specs.Commands.{audit_arith_of, audit_of, known_bits};
ghost use Rattle.claim_files.specs.NamedClaims.{Claimed};
ghost use Rattle.proof_audit.specs.Audits.{audit_task};
ghost use Rattle.proof_audit.specs.AuditRuns.{Audits, AuditStop, AreFiles, FindsIn, audit_refusal, coefficients, finding_line, finding_status, inputs_word};
ghost use Rattle.proof_audit.specs.NamedAudits.{IsAuditName, audit_asked, audit_of_arith};
ghost use Rattle.file_commands.specs.Effects.{OnlyLoads, effects};
ghost use Rattle.file_commands.specs.Stops.{PrintsMade};

use crate::audit_names::AuditNames;
use crate::auditing::audit;
use crate::fault::AuditFault;
use crate::laws::{accepted_logs_are_right, one_answer};
use arith_reader::texts_are_exact;
use bristol_reader::one_circuit;
use check_findings::Finding;
use claim_files::{ClaimNames, load_claim};
use command_words::{AuditArithAsk, AuditAsk, write_bits};
use dealer_files::{ProverFile, VerifierFile};
use element_file::{elements_are_exact, write_elements};
use file_commands::{Refusal, load_file, load_prover, load_verifier, say, say_memory, say_stop};
use mersenne_field::Fe;
use session_core::CircuitClaim;
use std::alloc::{AllocError, Global};
use std::thread::Threads;
use zk_port::{Shelf, Sink};

/// The claim and both dealt files.
#[derive(Drop)]
struct AuditedFiles {
    claim: CircuitClaim,
    prover: ProverFile,
    verifier: VerifierFile,
}

/// The claim and both files that the words name.
fn load_audited<R: Threads + Sync, F: Shelf>(
    rt: &R,
    alloc: Global,
    shelf: &mut F,
    names: &AuditNames,
) -> Result<AuditedFiles, Refusal>
    ensures files { IfOk result (λ files. (claimed : Claimed) × AreFiles (F.state shelf.old).told names.now
        claimed files.prover (audit_task files.claim files.verifier)) }
    ensures stop { IfErr result (AuditStop names.now (change (F.state shelf.old) (F.state shelf.new))) }
    ensures kept { OnlyLoads (IsAuditName names.now) (change (F.state shelf.old) (F.state shelf.new)) }
    ensures quiet { OnOk result (F.state shelf.new ≡ F.state shelf.old) }
{
    let claim = load_claim(rt, alloc, shelf, names.claim())?;
    let prover = load_prover(alloc, shelf, names.prover())?;
    let verifier = load_verifier(alloc, shelf, names.verifier())?;
    Ok(AuditedFiles {
        claim,
        prover,
        verifier,
    })
}

/// Why a run stops where an audit finds nothing.
fn refusal_of(fault: AuditFault) -> Refusal
    ensures { result ≡ audit_refusal fault }
{
    match fault {
        AuditFault::NoMemory => Refusal::NoMemory,
        AuditFault::NotDealt { unit } => Refusal::NotDealt { unit },
        AuditFault::LogFault { place } => Refusal::BadLog { place },
    }
}

/// What is found in the log that the words name.
fn audit_files<R: Threads + Sync, F: Shelf>(
    rt: &R,
    alloc: Global,
    shelf: &mut F,
    names: &AuditNames,
) -> Result<Finding, Refusal>
    ensures found { IfOk result (FindsIn (F.state shelf.old).told names.now) }
    ensures stop { IfErr result (AuditStop names.now (change (F.state shelf.old) (F.state shelf.new))) }
    ensures kept { OnlyLoads (IsAuditName names.now) (change (F.state shelf.old) (F.state shelf.new)) }
{
    let files = load_audited(rt, alloc, shelf, names)?;
    let log = load_file(alloc, shelf, names.log())?;
    let AuditedFiles {
        claim,
        prover,
        verifier,
    } = files;
    match audit(alloc, &claim.statement(), &prover, &verifier, &log) {
        Ok(finding) => Ok(finding),
        Err(fault) => Err(refusal_of(fault)),
    }
}

/// Coefficients, each behind a space.
fn write_coefficients(alloc: Global, polynomial: &[Fe]) -> Result<String, AllocError>
    ensures { IfOk result (λ text. string_bytes text ≡ coefficients polynomial.now) }
{
    let mut text = String::new(alloc);
    for coefficient in polynomial {
        let value = coefficient.value();
        let word = format!(in alloc; " {value}")?;
        text.push_str(&word)?;
    }
    Ok(text)
}

/// The line of a section, whose challenge is a root of the polynomial with these coefficients.
fn write_section(alloc: Global, section: u32, poly: &str) -> Result<String, AllocError>
    ensures { IfOk result (λ line. string_bytes line
        ≡ codes "challenge root section "
        ++ (decimal section ++ (codes " poly" ++ (poly.now ++ codes "\n")))) }
{
    Ok(format!(in alloc; "challenge root section {section} poly{poly}\n")?)
}

/// Which inputs are 1.
fn ones_of(alloc: Global, inputs: &[Fe]) -> Result<Vec<bool>, AllocError>
    ensures { IfOk result (λ bits. bits.items ≡ map (λ x. nat_eq x 1) inputs.now) }
{
    inputs.iter().map(|x| *x == Fe::ONE).collect(alloc)
}

/// The word of a claim's inputs: of a Boolean circuit as bits, of an arithmetic one as elements.
fn write_inputs(alloc: Global, claim: &ClaimNames, inputs: &[Fe]) -> Result<String, AllocError>
    ensures { IfOk result (λ word. string_bytes word ≡ inputs_word claim.now inputs.now) }
{
    match claim {
        ClaimNames::Boolean(_) => {
            let bits = ones_of(alloc, inputs)?;
            write_bits(alloc, &bits)
        }
        ClaimNames::Arithmetic(_) => write_elements(alloc, inputs),
    }
}

/// The line of a finding about a claim.
fn write_finding(alloc: Global, claim: &ClaimNames, finding: &Finding) -> Result<String, AllocError>
    ensures { IfOk result (λ line. string_bytes line ≡ finding_line claim.now finding.now) }
{
    match finding {
        Finding::Inputs(inputs) => {
            let word = write_inputs(alloc, claim, inputs)?;
            Ok(format!(in alloc; "inputs {word}\n")?)
        }
        Finding::ChallengeRoot {
            section,
            polynomial,
        } => {
            let poly = write_coefficients(alloc, polynomial)?;
            write_section(alloc, *section, &poly)
        }
        Finding::KeyRoot { polynomial } => {
            let poly = write_coefficients(alloc, polynomial)?;
            Ok(format!(in alloc; "key root poly{poly}\n")?)
        }
        Finding::NotAccepted => String::from_str(alloc, "not accepted\n"),
    }
}

/// The status of a finding: 0 where inputs are found.
fn status_of(finding: &Finding) -> u8
    ensures { result ≡ finding_status finding.now }
{
    match finding {
        Finding::Inputs(_) => 0,
        Finding::ChallengeRoot { .. } | Finding::KeyRoot { .. } | Finding::NotAccepted => 1,
    }
}

/// Says what is found about a claim, or that there is no memory for its line, and answers the status.
fn say_finding<O: Sink>(alloc: Global, out: &mut O, claim: &ClaimNames, finding: &Finding) -> u8
    ensures { PrintsMade (finding_status finding.now) (finding_line claim.now finding.now) result
        (change (O.state out.old) (O.state out.new)) }
{
    match write_finding(alloc, claim, finding) {
        Ok(line) => say(alloc, out, line.as_bytes(), status_of(finding)),
        Err(_) => say_memory(alloc, out),
    }
}

/// Says what the log of a session proves to one who has both dealt files, or why it says nothing, and answers the status.
fn run_named<R: Threads + Sync, F: Shelf, O: Sink>(
    rt: &R,
    alloc: Global,
    shelf: &mut F,
    out: &mut O,
    names: &AuditNames,
) -> u8
    ensures { Audits names.now (effects result
        (change (F.state shelf.old) (F.state shelf.new)) (change (O.state out.old) (O.state out.new))) }
{
    one_circuit();
    texts_are_exact();
    elements_are_exact();
    accepted_logs_are_right();
    one_answer();
    match audit_files(rt, alloc, shelf, names) {
        Ok(finding) => say_finding(alloc, out, names.claim(), &finding),
        Err(stop) => say_stop(alloc, out, stop),
    }
}

/// `audit CIRCUIT OUTPUTS PROVERFILE VERIFIERFILE LOG [--public BITS]`: says what the log of a session about a Boolean circuit proves to one
/// who has both dealt files, or why it says nothing, and answers the status.
pub fn run_audit<R: Threads + Sync, F: Shelf, O: Sink>(
    rt: &R,
    alloc: Global,
    shelf: &mut F,
    out: &mut O,
    ask: AuditAsk<String, Vec<bool>>,
) -> u8
    ensures { Audits (audit_asked (audit_of known_bits ask)) (effects result
        (change (F.state shelf.old) (F.state shelf.new)) (change (O.state out.old) (O.state out.new))) }
{
    let names = AuditNames::of_bits(ask);
    run_named(rt, alloc, shelf, out, &names)
}

/// `audit-arith CIRCUIT OUTPUTS PROVERFILE VERIFIERFILE LOG`: the same of a session about an arithmetic circuit, whose outputs stand in a file.
pub fn run_audit_arith<R: Threads + Sync, F: Shelf, O: Sink>(
    rt: &R,
    alloc: Global,
    shelf: &mut F,
    out: &mut O,
    ask: AuditArithAsk<String>,
) -> u8
    ensures { Audits (audit_of_arith (audit_arith_of ask)) (effects result
        (change (F.state shelf.old) (F.state shelf.new)) (change (O.state out.old) (O.state out.new))) }
{
    let names = AuditNames::of_elements(ask);
    run_named(rt, alloc, shelf, out, &names)
}
