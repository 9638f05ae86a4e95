// What audits say of the log of a rehearsal.
ghost use Rattle.std.specs.Prelude.{◌≡◌, ◌≤◌, length};

use crate::cases::Case;
use crate::program_ends::Claimed;
use crate::scenario::Dealt;
use crate::scene::params_of;
use crate::sessions::SEED;
use anyhow::Result;
use bristol_reader::Circuit;
use dealer_files::{ProverFile, VerifierFile, deal};
use mersenne_field::Fe;
use proof_audit::{AuditFault, Finding, audit};
use session_core::CircuitClaim;
use std::alloc::Global;
use std::fmt;

/// Both files, and what a session over them is about.
#[derive(Clone, Copy)]
struct Audited<'a> {
    circuit: &'a Circuit,
    public: &'a [bool],
    outputs: &'a [bool],
    prover: &'a ProverFile,
    verifier: &'a VerifierFile,
}

/// Inputs that are bits, as a word, or `none` where there are none.
#[derive(Clone, Copy)]
struct FoundBits<'a> {
    inputs: &'a [Fe],
}

impl fmt::Display for FoundBits<'_> {
    fn fmt<W: fmt::Write>(&self, f: &mut fmt::Formatter<W>) -> fmt::Result {
        if self.inputs.is_empty() {
            return write!(f, "none");
        }
        for input in self.inputs {
            write!(f, "{}", if *input == Fe::ONE { "1" } else { "0" })?;
        }
        Ok(())
    }
}

/// What an audit found, or why it found nothing.
#[derive(Drop)]
struct Answered {
    answer: Result<Finding, AuditFault>,
}

/// The coefficients of a polynomial, each behind a colon.
fn write_coefficients<W: fmt::Write>(f: &mut fmt::Formatter<W>, polynomial: &[Fe]) -> fmt::Result {
    for coefficient in polynomial {
        let value = coefficient.value();
        write!(f, ":{value}")?;
    }
    Ok(())
}

impl fmt::Display for Answered {
    fn fmt<W: fmt::Write>(&self, f: &mut fmt::Formatter<W>) -> fmt::Result {
        match &self.answer {
            Ok(Finding::Inputs(inputs)) => {
                let bits = FoundBits {
                    inputs: inputs.as_slice(),
                };
                write!(f, "inputs:{bits}")
            }
            Ok(
                Finding::ChallengeRoot {
                    section,
                    polynomial,
                },
            ) => {
                write!(f, "challenge-root:{section}")?;
                write_coefficients(f, polynomial)
            }
            Ok(Finding::KeyRoot { polynomial }) => {
                write!(f, "key-root")?;
                write_coefficients(f, polynomial)
            }
            Ok(Finding::NotAccepted) => write!(f, "not-accepted"),
            Err(AuditFault::NotDealt { unit }) => write!(f, "not-dealt:{unit}"),
            Err(AuditFault::LogFault { place }) => write!(f, "fault:{place}"),
            Err(AuditFault::NoMemory) => write!(f, "no-memory"),
        }
    }
}

/// The answer about a log.
fn answer_about(alloc: Global, audited: &Audited<'_>, log: &[u8]) -> Result<Answered>
    requires public { length audited.now.public.now ≤ audited.now.circuit.now.inputs }
    requires outputs { length audited.now.outputs.now ≡ audited.now.circuit.now.outputs }
{
    let Audited {
        circuit,
        public,
        outputs,
        prover,
        verifier,
    } = *audited;
    let circuit = circuit.copied(alloc)?;
    let claim = CircuitClaim::new(alloc, circuit, [0; 32], public, outputs)?;
    let answer = audit(alloc, &claim.statement(), prover, verifier, log);
    Ok(Answered { answer })
}

/// The line of an audit of a log.
fn audit_line(alloc: Global, audited: &Audited<'_>, case: Case) -> Result<String>
    requires public { length audited.now.public.now ≤ audited.now.circuit.now.inputs }
    requires outputs { length audited.now.outputs.now ≡ audited.now.circuit.now.outputs }
{
    let Case { name, script, .. } = case;
    let answer = answer_about(alloc, audited, &script)?;
    Ok(format!(in alloc; "{name}{answer}\n")?)
}

/// The lines of audits of these logs.
fn logs_lines(alloc: Global, audited: &Audited<'_>, cases: Vec<Case>) -> Result<String>
    requires public { length audited.now.public.now ≤ audited.now.circuit.now.inputs }
    requires outputs { length audited.now.outputs.now ≡ audited.now.circuit.now.outputs }
{
    let mut lines = String::new(alloc);
    for case in cases {
        lines.push_str(&audit_line(alloc, audited, case)?)?;
    }
    Ok(lines)
}

/// The lines of audits of these logs about a claim, over the files of a rehearsal that took so many units.
pub fn audit_lines(
    alloc: Global,
    claimed: &Claimed<'_, '_>,
    circuit: &Circuit,
    units: u64,
    cases: Vec<Case>,
) -> Result<String>
    requires public { length claimed.now.public.now ≤ circuit.now.inputs }
    requires outputs { length claimed.now.outputs.now ≡ circuit.now.outputs }
{
    let dealing = claimed.scenario.dealt.dealing;
    let params = params_of(Dealt { dealing, units })?;
    let (prover, verifier) = deal(alloc, &params, &SEED)?;
    let audited = Audited {
        circuit,
        public: claimed.public,
        outputs: claimed.outputs,
        prover: &prover,
        verifier: &verifier,
    };
    logs_lines(alloc, &audited, cases)
}
