// The pairs that the prover's file and a session fix.
ghost use Rattle.std.specs.Prelude.{◌≡◌, IfOk};
ghost use Rattle.zk_model.specs.ServedVerifier.{VerifierTask};
ghost use Rattle.wire_auth.specs.Held.{items_in};
ghost use Rattle.proof_audit.specs.Audits.{IsAudited};
ghost use Rattle.proof_audit.specs.Seen.{AreSeenPairs};
ghost use Rattle.proof_audit.specs.SeenValues.{fitted_pairs};

use crate::session::Session;
use crate::values::round_values;
use dealer_files::{ProverFile, VerifierFile};
use mersenne_field::{Fe, Pair};
use session_core::Correlations;
use std::alloc::{AllocError, Global};
use zk_model::{Kind, Span};

/// Pairs of these values, whose MACs fit these keys under the verifier's one key.
///
/// # Errors
///
/// Only where memory runs out.
pub fn fitted_pairs(
    alloc: Global,
    values: &[Fe],
    keys: &[Fe],
    key: Fe,
) -> Result<Vec<Pair>, AllocError>
    ensures { IfOk result (λ pairs. pairs.items ≡ fitted_pairs key values.now keys.now) }
{
    values
        .iter()
        .zip(keys)
        .map(|(x, k)| Pair {
            x: *x,
            m: *k - *x * key,
        })
        .collect(alloc)
}

/// The pairs of all correlations of an accepted session: in kind direct those that are dealt in the units of its grant, in kind
/// extended those that its round makes of fewer. Their values follow from what was dealt and asked, and their MACs from the
/// verifier's keys, so that no tree is grown again.
pub(crate) fn seen_pairs<'a>(
    alloc: Global,
    prover: &'a ProverFile,
    verifier: &VerifierFile,
    session: &Session,
) -> Result<Correlations<'a, Pair>, AllocError>
    requires { (task : VerifierTask) × (task.file ≡ verifier.now) × IsAudited prover.now task session.now }
    ensures { IfOk result (λ pairs. AreSeenPairs prover.now session.now (items_in pairs)) }
{
    let _total = prover.total();
    let start = session.grant.start;
    match prover.params().kind {
        Kind::Direct => {
            let end = start + u64::from(session.grant.count);
            Ok(Correlations::Dealt(prover.pairs(Span { start, end })))
        }
        Kind::Extended => {
            let values = round_values(alloc, prover, start, &session.asked)?;
            let pairs = fitted_pairs(alloc, &values, &session.keys, verifier.key())?;
            Ok(Correlations::Made(pairs))
        }
    }
}
