// Audits as words name them.
ghost use Rattle.std.specs.Prelude.{◌≡◌};
ghost use Rattle.command_words.specs.Commands.{audit_arith_of, audit_of, known_bits};
ghost use Rattle.proof_audit.specs.NamedAudits.{audit_asked, audit_of_arith};

use claim_files::{ClaimNames, NamedElements};
use command_words::{AuditArithAsk, AuditAsk};
use statement_file::NamedClaim;
use std::marker::Model;

/// An audit as words name it: the claim, both dealt files, and a session's log. Contracts see the names as one record.
#[derive(Debug, Drop)]
pub(crate) struct AuditNames {
    claim: ClaimNames,
    prover: String,
    verifier: String,
    log: String,
}

impl Model for AuditNames {
    ghost use Rattle.std.specs.Prelude.{string_bytes};
    ghost use Rattle.proof_audit.specs.NamedAudits as audits;

    ghost Value = { audits.Audit };

    ghost view = { λ a. record {
      claim = a.claim;
      prover = string_bytes a.prover;
      verifier = string_bytes a.verifier;
      log = string_bytes a.log;
    } };
}

impl AuditNames {
    /// The audit of a session about a Boolean circuit that is asked for.
    pub(crate) fn of_bits(ask: AuditAsk<String, Vec<bool>>) -> Self
        ensures { result ≡ audit_asked (audit_of known_bits ask) }
    {
        AuditNames {
            claim: ClaimNames::Boolean(NamedClaim::new(ask.circuit, ask.public, ask.outputs)),
            prover: ask.prover,
            verifier: ask.verifier,
            log: ask.log,
        }
    }

    /// The audit of a session about an arithmetic circuit that is asked for.
    pub(crate) fn of_elements(ask: AuditArithAsk<String>) -> Self
        ensures { result ≡ audit_of_arith (audit_arith_of ask) }
    {
        AuditNames {
            claim: ClaimNames::Arithmetic(NamedElements::new(ask.circuit, ask.outputs)),
            prover: ask.prover,
            verifier: ask.verifier,
            log: ask.log,
        }
    }

    /// The names of the claim.
    pub(crate) fn claim(&self) -> &ClaimNames
        ensures { result.now ≡ self.now.claim }
    {
        &self.claim
    }

    /// The name of the prover's file.
    pub(crate) fn prover(&self) -> &str
        ensures { result.now ≡ self.now.prover }
    {
        &self.prover
    }

    /// The name of the verifier's file.
    pub(crate) fn verifier(&self) -> &str
        ensures { result.now ≡ self.now.verifier }
    {
        &self.verifier
    }

    /// The name of the log.
    pub(crate) fn log(&self) -> &str
        ensures { result.now ≡ self.now.log }
    {
        &self.log
    }
}
