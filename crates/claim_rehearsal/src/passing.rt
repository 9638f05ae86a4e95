// All turns of both ends of a session about a claim.
ghost use Rattle.std.specs.Prelude.{◌≡◌, ◌+◌, ◌++◌, ◌∷◌, [], ◌≤◌, length, map, All, IfOk, OnOk};
ghost use Rattle.zk_model.specs.Files.{AreDealt};
ghost use Rattle.zk_model.specs.Frames as model;
ghost use Rattle.zk_model.specs.View.{verdict_code, verdict_number};
ghost use Rattle.proof_frames.specs.Frames.{frame_value, IsShort};
ghost use Rattle.session_core.specs.Judgements.{verdict_in};
ghost use Rattle.session_script.specs.Scripts.{log_of};
ghost use Rattle.session_claim.specs.Claims.{claim_needs};
ghost use Rattle.claim_prover.specs.Telling.{SuitsClaim, knowledge_of};
ghost use Rattle.claim_rehearsal.specs.Passed.{IsAnswered, IsClaimPassed, passed_frames};

use crate::rounds::pass_rounds;
use claim_prover::Witness;
use dealer_files::{ProverFile, VerifierFile};
use mersenne_field::{Fe, Pair};
use proof_frames::{Frame, Grant, Hello};
use session_core::Judgement;
use session_rehearsal::Correlated;
use std::alloc::{AllocError, Global};
use std::thread::Threads;
use zk_laws::keys_fit;
use zk_model::Verdict;

/// What passes after the rounds, and what the verifier finds.
#[derive(Drop)]
pub(crate) struct Answers {
    pub(crate) corrections: Vec<Fe>,
    pub(crate) challenge: Fe,
    pub(crate) answers: Vec<Frame>,
    pub(crate) judgement: Judgement,
}

/// All that passes in a session, and what the verifier finds.
#[derive(Drop)]
pub(crate) struct Passed {
    pub(crate) frames: Vec<Frame>,
    pub(crate) judgement: Judgement,
}

/// The turns after the rounds: corrections, the coin, answers, and what the verifier finds.
fn answer<R: Threads + Sync, W: Witness>(
    rt: &R,
    alloc: Global,
    witness: &W,
    verifier: &VerifierFile,
    grant: Grant,
    pairs: &[Pair],
    keys: &[Fe],
) -> Result<Answers, AllocError>
    requires some { 1 ≤ grant.section_length }
    requires within { grant.start + grant.count ≤ verifier.now.params.total }
    requires pairs { claim_needs (W.claim witness.now) grant.section_length ≤ length pairs.now }
    requires keys { claim_needs (W.claim witness.now) grant.section_length ≤ length keys.now }
    ensures answered { IfOk result (IsAnswered
        (knowledge_of (W.claim witness.now) (W.said witness.now) (W.given witness.now) (W.replying witness.now)) verifier.now grant pairs.now keys.now) }
{
    let _total = verifier.total();
    let corrections = witness.corrections(alloc, pairs)?;
    let challenge = verifier.challenge(grant.start);
    let answers = witness.answer(rt, alloc, pairs, grant.section, challenge)?;
    let judgement = witness.judge(
        rt,
        alloc,
        verifier.key(),
        keys,
        grant.section,
        &corrections,
        challenge,
        &answers,
    )?;
    Ok(Answers {
        corrections,
        challenge,
        answers,
        judgement,
    })
}

/// The frame of a verdict.
fn verdict_of(judgement: &Judgement) -> Frame
    ensures { frame_value result ≡ model.verdict (verdict_code (verdict_in judgement.now)) (verdict_number (verdict_in judgement.now)) }
{
    match judgement.verdict() {
        Verdict::Accepted => Frame::Verdict { code: 0, number: 0 },
        Verdict::RejectedSum { section } => Frame::Verdict {
            code: 1,
            number: section,
        },
        Verdict::RejectedOpening { output } => Frame::Verdict {
            code: 2,
            number: output,
        },
    }
}

/// Adds a frame.
fn add(frames: &mut Vec<Frame>, frame: Frame) -> Result<(), AllocError>
    ensures { OnOk result (map frame_value frames.new.items ≡ map frame_value frames.old.items ++ frame_value frame ∷ []) }
{
    frames.push(frame)?;
    Ok(())
}

/// Adds frames.
fn add_all(frames: &mut Vec<Frame>, more: Vec<Frame>) -> Result<(), AllocError>
    ensures { OnOk result (map frame_value frames.new.items ≡ map frame_value frames.old.items ++ map frame_value more.items) }
{
    let mut more = more;
    frames.append(&mut more)?;
    Ok(())
}

/// All frames, in order.
fn frames_of(
    alloc: Global,
    hello: Hello,
    grant: Grant,
    asked: Vec<Frame>,
    replied: Vec<Frame>,
    said: Answers,
) -> Result<Vec<Frame>, AllocError>
    ensures { IfOk result (λ frames. map frame_value frames.items
        ≡ passed_frames hello grant (map frame_value asked.items ++ map frame_value replied.items) said) }
{
    let Answers {
        corrections,
        challenge,
        answers,
        judgement,
    } = said;
    let mut frames = Vec::new(alloc);
    add(&mut frames, Frame::Hello(hello))?;
    add(&mut frames, Frame::Grant(grant))?;
    add_all(&mut frames, asked)?;
    add_all(&mut frames, replied)?;
    add(&mut frames, Frame::Corrections(corrections))?;
    add(&mut frames, Frame::Challenge(challenge))?;
    add_all(&mut frames, answers)?;
    add(&mut frames, verdict_of(&judgement))?;
    Ok(frames)
}

/// All turns of a session under this grant, of an honest prover and a verifier.
pub(crate) fn pass<R: Threads + Sync, W: Witness>(
    rt: &R,
    alloc: Global,
    witness: &W,
    prover: &ProverFile,
    verifier: &VerifierFile,
    grant: Grant,
) -> Result<Passed, AllocError>
    requires suits { SuitsClaim (W.claim witness.now) verifier.now.params grant }
    requires within { grant.start + grant.count ≤ verifier.now.params.total }
    requires dealt { AreDealt prover.now verifier.now }
    ensures passed { IfOk result (λ p. IsClaimPassed
        (knowledge_of (W.claim witness.now) (W.said witness.now) (W.given witness.now) (W.replying witness.now)) prover.now verifier.now grant
        p.judgement (log_of (map frame_value p.frames.items))) }
    ensures short { IfOk result (λ p. All IsShort (map frame_value p.frames.items)) }
{
    keys_fit();
    let _prover = prover.total();
    let _verifier = verifier.total();
    let _greeting = witness.hello_place();
    let _givens = witness.givens();
    let _verdict = witness.verdict_place();
    let _places = witness.answers(alloc, grant.section)?;
    let hello = witness.hello(prover.id());
    let Correlated {
        asked,
        replied,
        pairs,
        keys,
    } = pass_rounds(rt, alloc, prover, verifier, grant)?;
    let said = answer(
        rt,
        alloc,
        witness,
        verifier,
        grant,
        pairs.as_slice(),
        keys.as_slice(),
    )?;
    let judgement = said.judgement;
    let frames = frames_of(alloc, hello, grant, asked, replied, said)?;
    Ok(Passed { frames, judgement })
}
