// The rounds after a grant, of both ends at once.
ghost use Rattle.std.specs.Prelude.{◌≡◌, ◌+◌, ◌*◌, ◌++◌, ◌≤◌, length, map, IfOk};
ghost use Rattle.zk_model.specs.Correlations.{span_keys};
ghost use Rattle.zk_model.specs.Files.{correlations_per_unit};
ghost use Rattle.zk_model.specs.View.{span_of};
ghost use Rattle.proof_frames.specs.Frames.{frame_value};
ghost use Rattle.wire_auth.specs.Held.{items_in};
ghost use Rattle.session_rehearsal.specs.Exchanges.{AreShort};
ghost use Rattle.claim_rehearsal.specs.Passed.{ArePassedRounds};

use dealer_files::{ProverFile, VerifierFile};
use proof_frames::Grant;
use session_core::{Correlations, units_of};
use session_rehearsal::{Correlated, extend};
use std::alloc::{AllocError, Global};
use std::thread::Threads;
use zk_model::Kind;

/// The rounds after the grant: none in kind direct, and one in kind extended.
pub(crate) fn pass_rounds<'p, 'v, R: Threads + Sync>(
    rt: &R,
    alloc: Global,
    prover: &'p ProverFile,
    verifier: &'v VerifierFile,
    grant: Grant,
) -> Result<Correlated<'p, 'v>, AllocError>
    requires params { prover.now.params ≡ verifier.now.params }
    requires code { prover.now.code_seed ≡ verifier.now.code_seed }
    requires within { grant.start + grant.count ≤ verifier.now.params.total }
    ensures passed { IfOk result (λ e. ArePassedRounds prover.now verifier.now grant (items_in e.pairs)
        (map frame_value e.asked.items ++ map frame_value e.replied.items)) }
    ensures short { IfOk result (λ e. AreShort e.asked.items e.replied.items) }
    ensures pairs { IfOk result (λ e. length (items_in e.pairs) ≡ grant.count * correlations_per_unit prover.now.params) }
    ensures keys { IfOk result (λ e. items_in e.keys ≡ span_keys verifier.now (span_of grant)) }
    ensures key_count { IfOk result (λ e. length (items_in e.keys) ≡ grant.count * correlations_per_unit verifier.now.params) }
{
    let _prover = prover.total();
    let _verifier = verifier.total();
    let span = units_of(grant);
    match verifier.params().kind {
        Kind::Direct => Ok(Correlated {
            asked: Vec::new(alloc),
            replied: Vec::new(alloc),
            pairs: Correlations::Dealt(prover.pairs(span)),
            keys: Correlations::Dealt(verifier.keys(span)),
        }),
        Kind::Extended => {
            let passed = extend(rt, alloc, prover, verifier, grant)?;
            Ok(passed)
        }
    }
}
