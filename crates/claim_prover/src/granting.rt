// How a prover takes a grant.
ghost use Rattle.std.specs.Prelude.{◌≡◌, ℕ, ◌+◌, ◌≤◌, None, true, false, Ok, Err, IfOk, IfErr};
ghost use Rattle.zk_model.specs.Files.{AreParams};
ghost use Rattle.zk_model.specs.View.{span_of};
ghost use Rattle.session_prover.specs.Stages.{Claimed, claimant_tells};
ghost use Rattle.proof_frames.specs.Frames.{frame_value};
ghost use Rattle.round_fan.specs.Fans.{lists_of};
ghost use Rattle.zk_model.specs.Frames as model;
ghost use Rattle.zk_model.specs.Frames.{Allows};
ghost use Rattle.zk_model.specs.declared.Expect.TheVariants as expect;
ghost use Rattle.claim_prover.specs.Telling.{RefusesGrant, SuitsClaim, TakesUnits, asks_in};
ghost use Rattle.claim_prover.specs.declared.fault.ProvingFault.TheVariants.{PeerRefused};

use crate::fault::ProvingFault;
use crate::rounds::asks_for;
use crate::witness::Witness;
use claim_store::ClaimFault;
use dealer_files::ProverFile;
use mersenne_field::Fe;
use proof_frames::{Frame, Grant};
use session_claim::Claim;
use session_core::units_for;
use session_prover::Claimant;
use std::alloc::Global;
use std::collections::VecDeque;
use tree_messages::{TreeAsk, TreeReply};
use zk_model::{MAX_SECTION_LENGTH, MAX_UNITS, Params, Span};

/// Whether a grant is one of a session about a claim: its sections have 1 to 2^20 products, and its units are as many as these take, and
/// 4,096 at most.
pub(crate) fn suits<C: Claim>(claim: &C, params: &Params, grant: Grant) -> bool
    requires params { AreParams params.now }
    ensures yes { result ≡ true → SuitsClaim (C.claim claim.now) params.now grant }
    ensures no { result ≡ false → ¬ SuitsClaim (C.claim claim.now) params.now grant }
{
    if grant.section < 1 || grant.section > MAX_SECTION_LENGTH {
        return false;
    }
    let count = u64::from(grant.count);
    count == units_for(params, claim.need(grant.section)) && count <= MAX_UNITS
}

/// Has the units of a grant claimed.
pub(crate) fn claim_units<O: Claimant>(claimant: &mut O, grant: Grant) -> Result<Span, ClaimFault>
    requires once { O.answer claimant.old ≡ None }
    requires at_least_one { 1 ≤ grant.count }
    ensures claimed { IfOk result (λ span. Claimed (claimant_tells O.asked O.answer O.total O.moves) grant (Ok (span_of grant))
        claimant.old claimant.new) }
    ensures refused { IfErr result (λ fault. Claimed (claimant_tells O.asked O.answer O.total O.moves) grant (Err fault)
        claimant.old claimant.new) }
    ensures within { IfOk result (λ _. grant.start + grant.count ≤ O.total claimant.old) }
{
    claimant.claim(grant.start, grant.count)
}

/// Takes a grant: it suits, and its units are claimed; then it has what it asks for them.
pub(crate) fn take_grant<O: Claimant, W: Witness>(
    alloc: Global,
    witness: &W,
    file: &ProverFile,
    claimant: &mut O,
    grant: Grant,
) -> Result<VecDeque<Vec<TreeAsk>>, ProvingFault>
    requires once { O.answer claimant.old ≡ None }
    requires total { O.total claimant.old ≤ file.now.params.total }
    ensures taken { IfOk result (λ asks. TakesUnits (claimant_tells O.asked O.answer O.total O.moves) (W.claim witness.now) file.now grant
        claimant.old claimant.new × (lists_of asks.items ≡ asks_in file.now file.now.params.kind grant)) }
    ensures refused { IfErr result (λ fault. RefusesGrant (claimant_tells O.asked O.answer O.total O.moves) (W.claim witness.now) file.now grant
        fault claimant.old claimant.new) }
{
    let _total = file.total();
    if !suits(witness, &file.params(), grant) {
        return Err(ProvingFault::BadGrant);
    }
    match claim_units(claimant, grant) {
        Err(cause) => Err(ProvingFault::Claim(cause)),
        Ok(_span) => Ok(asks_for(alloc, file, grant)?),
    }
}

/// The grant that a frame in its place is; a refusal may come there.
pub(crate) fn grant_in(frame: Frame) -> Result<Grant, ProvingFault>
    requires { Allows expect.Grant (frame_value frame) }
    ensures grant { IfOk result (λ grant. frame_value frame ≡ model.grant grant) }
    ensures refused { IfErr result (λ fault. (code : ℕ) × (fault ≡ PeerRefused code) × (frame_value frame ≡ model.refuse code)) }
{
    match frame {
        Frame::Grant(grant) => Ok(grant),
        Frame::Refuse { code } => Err(ProvingFault::PeerRefused { code }),
        _ => unreachable!(),
    }
}

/// The replies that a frame in their place is.
pub(crate) fn replies_in(frame: Frame) -> Vec<TreeReply>
    requires { (height : ℕ) × (trees : ℕ) × (left : ℕ) × Allows (expect.Reply height trees left) (frame_value frame) }
    ensures { frame_value frame ≡ model.replies result.items }
{
    match frame {
        Frame::ExtendReply(trees) => trees,
        _ => unreachable!(),
    }
}

/// The challenge that a frame in its place is.
pub(crate) fn challenge_in(frame: Frame) -> Fe
    requires { Allows expect.Challenge (frame_value frame) }
    ensures { frame_value frame ≡ model.challenge result }
{
    match frame {
        Frame::Challenge(element) => element,
        _ => unreachable!(),
    }
}

/// The code and the number of the verdict that a frame in its place is.
pub(crate) fn verdict_in(frame: Frame) -> (u8, u32)
    requires { (code : _) × (number : _) × (frame_value frame ≡ model.verdict code number) }
    ensures { frame_value frame ≡ model.verdict result.0 result.1 }
{
    match frame {
        Frame::Verdict { code, number } => (code, number),
        _ => unreachable!(),
    }
}
