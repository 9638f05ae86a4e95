// What a scenario writes.
ghost use Rattle.std.specs.Prelude.{◌≡◌, ◌≤◌, ◌+◌, length, IfOk};
ghost use Rattle.zk_model.specs.Bytes.{AreBytes};
ghost use Rattle.zk_model.specs.Statement.{circuit_statement};
ghost use Rattle.zk_model.specs.declared.limits.TheConstants.{MAX_SECTION_LENGTH};

use crate::audits::audit_lines;
use crate::cases::cases_of;
use crate::ends::{EndJob, hold_dialogue, session_lines};
use crate::program_ends::{Claimed, proof_lines, service_lines, words_lines};
use crate::say::{Judged, Logged};
use crate::scenario::{End, Scenario};
use crate::scene::{InputBits, claimed_outputs, input_bits, params_of};
use anyhow::{Error, Result};
use bristol_reader::{Circuit, read};
use dealer_files::{VerifierFile, deal};
use mersenne_field::Fe;
use session_core::{
    CircuitClaim, ProverJob, Statement, TooLarge, VerifierJob, VerifierJobs, elements_of,
};
use session_rehearsal::{Rehearsal, rehearse};
use sha2::{Digest, Sha256};
use std::alloc::Global;
use std::sync::Wait;
use std::thread::Threads;
use zk_model::MAX_SECTION_LENGTH;

/// The seed of all files.
pub const SEED: [u8; 32] = [7; 32];

/// A circuit, and the digest of its text.
#[derive(Clone, Copy)]
struct Named<'a> {
    circuit: &'a Circuit,
    digest: [u8; 32],
}

/// What the honest peers of a service send: the first over the first unit that is stated, and each over the units after.
fn honest_peers<R: Threads + Sync>(
    rt: &R,
    alloc: Global,
    scenario: &Scenario<'_>,
    prover: &ProverJob<'_>,
    verifier: &VerifierJobs<'_>,
) -> Result<Vec<Vec<u8>>> {
    let mut honest = Vec::new(alloc);
    let mut start = scenario.start;
    for _ in 0..scenario.service.peers {
        let sent = hold_dialogue(rt, alloc, start, prover, verifier)?;
        honest.push(sent.prover)?;
        start = start.saturating_add(u64::from(verifier.noted(None).units()));
    }
    Ok(honest)
}

/// The lines of a scenario of these ends.
fn lines_of<R: Threads + Wait + Sync>(
    rt: &R,
    alloc: Global,
    claimed: &Claimed<'_, '_>,
    prover: &ProverJob<'_>,
    verifier: &VerifierJobs<'_>,
) -> Result<String> {
    let scenario = claimed.scenario;
    if scenario.end == End::Service {
        let honest = honest_peers(rt, alloc, scenario, prover, verifier)?;
        return service_lines(rt, alloc, claimed, &honest);
    }
    let sent = hold_dialogue(rt, alloc, scenario.start, prover, verifier)?;
    if scenario.end == End::Proof {
        return proof_lines(rt, alloc, claimed, &sent.verifier);
    }
    let mut lines = String::new(alloc);
    if scenario.end != End::Prover {
        let job = EndJob::Verifier(verifier);
        lines.push_str(&session_lines(rt, alloc, scenario, job, &sent.prover)?)?;
    }
    if scenario.end != End::Verifier {
        let job = EndJob::Prover(prover);
        lines.push_str(&session_lines(rt, alloc, scenario, job, &sent.verifier)?)?;
    }
    Ok(lines)
}

/// The length of sections.
fn section_of(scenario: &Scenario<'_>) -> Result<u32>
    ensures at_least_one { IfOk result (λ section. 1 ≤ section) }
    ensures at_most { IfOk result (λ section. section ≤ MAX_SECTION_LENGTH) }
{
    let section = scenario.section;
    if section < 1 || section > MAX_SECTION_LENGTH {
        return Err(Error::msg("no length of sections"));
    }
    Ok(section)
}

/// The lines of a scenario whose claim no verifier takes: there is no such session, and no honest peer.
fn unfit_lines<R: Threads + Wait + Sync>(
    rt: &R,
    alloc: Global,
    claimed: &Claimed<'_, '_>,
    prover: &ProverJob<'_>,
    fault: TooLarge,
) -> Result<String> {
    let TooLarge { need, units } = fault;
    match claimed.scenario.end {
        End::Prover => session_lines(rt, alloc, claimed.scenario, EndJob::Prover(prover), &[]),
        End::Proof => proof_lines(rt, alloc, claimed, &[]),
        _ => Ok(format!(in alloc; "too-large need={need} units={units}\n")?),
    }
}

/// The claim of a scenario, with so many public bits.
fn claim_of(
    alloc: Global,
    named: &Named<'_>,
    public: &[bool],
    outputs: &[bool],
) -> Result<CircuitClaim>
    requires digest { AreBytes 32 named.now.digest }
    requires public { length public.now ≤ named.now.circuit.now.inputs }
    requires outputs { length outputs.now ≡ named.now.circuit.now.outputs }
    ensures { IfOk result (λ claim. claim
        ≡ circuit_statement named.now.circuit.now named.now.digest public.now outputs.now) }
{
    let circuit = named.circuit.copied(alloc)?;
    let claim = CircuitClaim::new(alloc, circuit, named.digest, public, outputs)?;
    Ok(claim)
}

/// The lines of a scenario of a verifier that offers this statement, and before it another, where there is one.
fn offered_lines<R: Threads + Wait + Sync>(
    rt: &R,
    alloc: Global,
    claimed: &Claimed<'_, '_>,
    before: Option<&Statement<'_>>,
    prover: &ProverJob<'_>,
    file: &VerifierFile,
) -> Result<String> {
    let section = section_of(claimed.scenario)?;
    let own = match VerifierJob::fit(prover.statement(), file, section) {
        Ok(own) => own,
        Err(fault) => return unfit_lines(rt, alloc, claimed, prover, fault),
    };
    let Some(before) = before else {
        let jobs = VerifierJobs::new(&own, &[]);
        return lines_of(rt, alloc, claimed, prover, &jobs);
    };
    let others = [own];
    match VerifierJob::fit(before, file, section) {
        Ok(first) => {
            if before.kind() != prover.statement().kind() {
                return Err(Error::msg("circuits of two kinds"));
            }
            let jobs = VerifierJobs::new(&first, &others);
            lines_of(rt, alloc, claimed, prover, &jobs)
        }
        Err(fault) => unfit_lines(rt, alloc, claimed, prover, fault),
    }
}

/// The lines of a scenario about this statement, after that with the stated number of public bits, where there is one.
fn statement_lines<R: Threads + Wait + Sync>(
    rt: &R,
    alloc: Global,
    claimed: &Claimed<'_, '_>,
    named: &Named<'_>,
    bits: &[bool],
    prover: &ProverJob<'_>,
    file: &VerifierFile,
) -> Result<String>
    requires digest { AreBytes 32 named.now.digest }
    requires bits { length bits.now ≡ named.now.circuit.now.inputs }
    requires outputs { length claimed.now.outputs.now ≡ named.now.circuit.now.outputs }
{
    let Some(before) = claimed.scenario.before else {
        return offered_lines(rt, alloc, claimed, None, prover, file);
    };
    let Some(before) = bits.get(..before) else {
        return Err(Error::msg("too many public bits"));
    };
    let other = claim_of(alloc, named, before, claimed.outputs)?;
    offered_lines(rt, alloc, claimed, Some(&other.statement()), prover, file)
}

/// The lines of a scenario about this statement, over files that are dealt for it.
fn dealt_lines<R: Threads + Wait + Sync>(
    rt: &R,
    alloc: Global,
    claimed: &Claimed<'_, '_>,
    named: &Named<'_>,
    bits: &[bool],
    statement: &Statement<'_>,
    inputs: &[Fe],
) -> Result<String>
    requires digest { AreBytes 32 named.now.digest }
    requires bits { length bits.now ≡ named.now.circuit.now.inputs }
    requires outputs { length claimed.now.outputs.now ≡ named.now.circuit.now.outputs }
    requires inputs { length inputs.now ≡ statement.now.program.inputs }
{
    let params = params_of(claimed.scenario.dealt)?;
    let (prover, verifier) = deal(alloc, &params, &SEED)?;
    let prover = ProverJob::new(statement, &prover, inputs);
    statement_lines(rt, alloc, claimed, named, bits, &prover, &verifier)
}

/// The lines of a scenario about this claim of the circuit, of which these are the bits of all inputs and the private ones.
fn claim_lines<R: Threads + Wait + Sync>(
    rt: &R,
    alloc: Global,
    claimed: &Claimed<'_, '_>,
    named: &Named<'_>,
    bits: &[bool],
    private: &[bool],
) -> Result<String>
    requires digest { AreBytes 32 named.now.digest }
    requires bits { length bits.now ≡ named.now.circuit.now.inputs }
    requires outputs { length claimed.now.outputs.now ≡ named.now.circuit.now.outputs }
    requires parts { length claimed.now.public.now + length private.now ≡ named.now.circuit.now.inputs }
{
    let inputs = elements_of(alloc, private)?;
    let claim = claim_of(alloc, named, claimed.public, claimed.outputs)?;
    let statement = claim.statement();
    dealt_lines(rt, alloc, claimed, named, bits, &statement, &inputs)
}

/// The lines of a scenario about this circuit.
fn circuit_lines<R: Threads + Wait + Sync>(
    rt: &R,
    alloc: Global,
    scenario: &Scenario<'_>,
    named: &Named<'_>,
) -> Result<String>
    requires { AreBytes 32 named.now.digest }
{
    let bits = input_bits(alloc, named.circuit, scenario)?;
    let outputs = claimed_outputs(alloc, named.circuit, scenario.outputs, &bits.all)?;
    let (public, private) = bits.all.split_at(bits.public);
    let claimed = Claimed {
        scenario,
        public,
        outputs: &outputs,
    };
    claim_lines(rt, alloc, &claimed, named, &bits.all, private)
}

/// A rehearsal over files of its own.
fn rehearsed<R: Threads + Sync>(
    rt: &R,
    alloc: Global,
    scenario: &Scenario<'_>,
    circuit: Circuit,
    public: &[bool],
    private: &[bool],
) -> Result<Rehearsal<session_rehearsal::Bits>>
    requires { length public.now ≤ circuit.inputs }
{
    let section = section_of(scenario)?;
    let kind = params_of(scenario.dealt)?.kind;
    let rehearsal = rehearse(rt, alloc, circuit, public, private, kind, section, &SEED)?;
    Ok(rehearsal)
}

/// The line of what a rehearsal gave.
fn rehearsal_text(alloc: Global, rehearsal: &Rehearsal<session_rehearsal::Bits>) -> Result<String> {
    let judged = Judged {
        verdict: rehearsal.verdict,
    };
    let units = rehearsal.units;
    let log = Logged {
        log: &rehearsal.log,
    };
    Ok(format!(in alloc; "{judged} units={units} {log}\n")?)
}

/// The line of a rehearsal.
fn rehearsal_line<R: Threads + Sync>(
    rt: &R,
    alloc: Global,
    scenario: &Scenario<'_>,
    circuit: &Circuit,
) -> Result<String> {
    let bits = input_bits(alloc, circuit, scenario)?;
    let (public, private) = bits.all.split_at(bits.public);
    let copy = circuit.copied(alloc)?;
    let rehearsal = rehearsed(rt, alloc, scenario, copy, public, private)?;
    rehearsal_text(alloc, &rehearsal)
}

/// The lines of audits of a rehearsal's log.
fn audits_of<R: Threads + Sync>(
    rt: &R,
    alloc: Global,
    scenario: &Scenario<'_>,
    circuit: &Circuit,
    bits: &InputBits,
) -> Result<String>
    requires all { length bits.now.all.items ≡ circuit.now.inputs }
    requires public { bits.now.public ≤ circuit.now.inputs }
{
    let (public, private) = bits.all.split_at(bits.public);
    let copy = circuit.copied(alloc)?;
    let rehearsal = rehearsed(rt, alloc, scenario, copy, public, private)?;
    let cases = cases_of(alloc, &scenario.peer, rehearsal.log.bytes())?;
    let outputs = claimed_outputs(alloc, circuit, scenario.outputs, &bits.all)?;
    let claimed = Claimed {
        scenario,
        public,
        outputs: &outputs,
    };
    audit_lines(alloc, &claimed, circuit, rehearsal.units, cases)
}

/// The lines of audits of the log of a rehearsal of this circuit.
fn audits_about<R: Threads + Sync>(
    rt: &R,
    alloc: Global,
    scenario: &Scenario<'_>,
    circuit: &Circuit,
) -> Result<String> {
    let bits = input_bits(alloc, circuit, scenario)?;
    audits_of(rt, alloc, scenario, circuit, &bits)
}

/// The digest of a circuit's text.
fn digest_of(text: &[u8]) -> [u8; 32]
    ensures { AreBytes 32 result }
{
    Sha256::digest(text)
}

/// The lines of a scenario.
pub fn scenario_lines<R: Threads + Wait + Sync>(
    rt: &R,
    alloc: Global,
    scenario: &Scenario<'_>,
) -> Result<String> {
    if scenario.end == End::Run {
        return words_lines(rt, alloc, scenario);
    }
    let circuit = read(alloc, scenario.text)?;
    let named = Named {
        circuit: &circuit,
        digest: digest_of(scenario.text),
    };
    match scenario.end {
        End::Rehearsal => rehearsal_line(rt, alloc, scenario, &circuit),
        End::Audit => audits_about(rt, alloc, scenario, &circuit),
        _ => circuit_lines(rt, alloc, scenario, &named),
    }
}
