// A verifier's voice, over any claim.
ghost use Rattle.std.specs.Prelude.{◌≡◌, ◌+◌, ◌++◌, ◌∷◌, ◌≤◌, None, Some, [], length, map, IsSome, IfOk, IfErr, OnOk};
ghost use Rattle.std.specs.Thread.{IsSync};
ghost use Rattle.std.proofs.Props.{props};
ghost use Rattle.zk_model.specs.Files.{VerifierFile};
ghost use Rattle.zk_model.specs.Frames as model;
ghost use Rattle.zk_model.specs.Frames.{Allows};
ghost use Rattle.zk_model.specs.Correlations.{span_keys};
ghost use Rattle.zk_model.specs.ServedVerifier.{challenge_coin};
ghost use Rattle.zk_model.specs.View.{span_of, verdict_code, verdict_number};
ghost use Rattle.zk_model.specs.declared.Expect.TheVariants as expect;
ghost use Rattle.zk_model.specs.declared.limits.TheConstants.{MAX_UNITS};
ghost use Rattle.proof_frames.specs.Frames.{frame_value};
ghost use Rattle.session_core.specs.Judgements.{verdict_in};
ghost use Rattle.session_claim.specs.Claims.{claim_needs};
ghost use Rattle.session_verifier.specs.Outcomes.{grant_code};
ghost use Rattle.session_verifier.specs.Serving.{Leases, grants_of};
ghost use Rattle.claim_verifier.specs.Hearing.{grant_from, units_of, voice_code};
ghost use Rattle.claim_verifier.specs.Rounds.{IsKeyed, IsToJudge, round_stage};
ghost use Rattle.claim_verifier.specs.declared.fault.VoiceFault.TheVariants.{NoMemory};
ghost use Rattle.claim_verifier.specs.declared.fault.VoiceFault.TheVariants as fault;

use crate::fault::VoiceFault;
use crate::rounds::{Rounds, keys_of, next_reply, take_asks};
use dealer_files::VerifierFile;
use lease_store::{GrantFault, Grantor, LeaseFault};
use mersenne_field::Fe;
use proof_frames::{Frame, Grant};
use session_claim::{Claim, claim_behind};
use session_core::{Judgement, units_for};
use session_laws::replies_are_in_range;
use session_script::Voice;
use std::alloc::{AllocError, Global};
use std::collections::VecDeque;
use std::thread::Threads;
use zk_model::{Expect, Side, Verdict};

/// A verifier: its claim and its file, the length of its sections, and what it has heard and said so far.
#[derive(Drop)]
pub struct Verifying<'a, C> {
    pub claim: &'a C,
    pub file: &'a VerifierFile,
    pub section: u32,
    pub given: Option<Grant>,
    pub rounds: Rounds,
    pub corrections: Vec<Fe>,
    pub answers: Vec<Frame>,
    pub judged: Option<Judgement>,
    ghost some: { 1 ≤ section },
    ghost keyed: { IsKeyed file.now given rounds } by { Prim.hlevel props },
}

/// The units of a session.
fn units<C: Claim>(claim: &C, file: &VerifierFile, section: u32) -> u32
    requires some { 1 ≤ section }
    requires few { units_of (C.claim claim.now) file.now section ≤ MAX_UNITS }
    ensures { result ≡ units_of (C.claim claim.now) file.now section }
{
    units_for(&file.params(), claim.need(section)) as u32
}

/// The grant that is known.
fn the_grant(given: &Option<Grant>) -> Grant
    requires { IsSome given.now }
    ensures { given.now ≡ Some result }
{
    match given {
        Some(grant) => *grant,
        None => unreachable!(),
    }
}

/// Has the units of a session leased, and grants them.
fn grant_units<C: Claim, G: Grantor>(
    claim: &C,
    file: &VerifierFile,
    section: u32,
    grantor: &mut G,
) -> Result<Grant, VoiceFault>
    requires some { 1 ≤ section }
    requires few { units_of (C.claim claim.now) file.now section ≤ MAX_UNITS }
    requires once { G.answer grantor.old ≡ None }
    requires may { G.may grantor.old (units_of (C.claim claim.now) file.now section) }
    ensures granted { IfOk result (λ grant. (span : _)
        × Leases (grants_of G.answer G.asked G.total G.may G.moves) (units_of (C.claim claim.now) file.now section) (Ok span) grantor.old grantor.new
        × (span.end ≡ span.start + units_of (C.claim claim.now) file.now section)
        × (span.end ≤ G.total grantor.old)
        × (grant ≡ grant_from (C.claim claim.now) file.now section span.start)) }
    ensures refused { IfErr result (λ why. (cause : _) × (why ≡ fault.Grant cause)
        × Leases (grants_of G.answer G.asked G.total G.may G.moves) (units_of (C.claim claim.now) file.now section) (Err cause) grantor.old grantor.new) }
{
    let count = units(claim, file, section);
    match grantor.grant(count) {
        Ok(span) => Ok(Grant {
            start: span.start,
            count,
            section,
        }),
        Err(cause) => Err(VoiceFault::Grant(cause)),
    }
}

/// The frame of a verdict.
fn verdict_frame(judgement: &Judgement) -> Frame
    ensures { frame_value result ≡ model.verdict (verdict_code (verdict_in judgement.now))
        (verdict_number (verdict_in judgement.now)) }
{
    match judgement.verdict() {
        Verdict::Accepted => Frame::Verdict { code: 0, number: 0 },
        Verdict::RejectedSum { section } => Frame::Verdict {
            code: 1,
            number: section,
        },
        Verdict::RejectedOpening { output } => Frame::Verdict {
            code: 2,
            number: output,
        },
    }
}

/// What is found of a whole session with this grant.
fn judge<R: Threads + Sync, C: Claim>(
    rt: &R,
    alloc: Global,
    claim: &C,
    file: &VerifierFile,
    given: Grant,
    rounds: &Rounds,
    corrections: &[Fe],
    answers: &[Frame],
) -> Result<Judgement, AllocError>
    requires shared { IsSync R.row }
    requires some { 1 ≤ given.section_length }
    requires keyed { IsKeyed file.now (Some given) rounds.now }
    requires due { IsToJudge (C.claim claim.now) file.now given.section_length given (round_stage rounds.now) (record {
      section_length = given.section_length;
      corrections = corrections.now;
      challenge = challenge_coin file.now given.start;
      answers = map frame_value answers.now;
    }) }
    ensures enough { OnOk result (claim_needs (C.claim claim.now) given.section_length ≤ length (span_keys file.now (span_of given))) }
    ensures placed { IfOk result (λ judgement. Allows (C.claim claim.now).verdict
        (model.verdict (verdict_code (verdict_in judgement)) (verdict_number (verdict_in judgement)))) }
    ensures judged { IfOk result (λ judgement. (C.claim claim.now).judges file.now.key (span_keys file.now (span_of given)) (record {
      section_length = given.section_length;
      corrections = corrections.now;
      challenge = challenge_coin file.now given.start;
      answers = map frame_value answers.now;
    }) judgement) }
{
    let _total = file.total();
    let keys = keys_of(file, given, rounds);
    let challenge = file.challenge(given.start);
    claim.judge(
        rt,
        alloc,
        file.key(),
        keys,
        given.section,
        corrections,
        challenge,
        answers,
    )
}

/// Notes an answer more.
fn keep_answer(answers: &mut Vec<Frame>, frame: Frame) -> Result<(), AllocError>
    ensures { OnOk result (map frame_value answers.new.items ≡ map frame_value answers.old.items ++ frame_value frame ∷ []) }
{
    answers.push(frame)?;
    Ok(())
}

/// The code of a refusal.
fn code_of(fault: &VoiceFault) -> u8
    ensures { result ≡ voice_code fault.now }
{
    match fault {
        VoiceFault::BadHello(_) => 1,
        VoiceFault::Grant(GrantFault::Lease(LeaseFault::Exhausted { .. })) => 2,
        VoiceFault::Grant(GrantFault::Lease(LeaseFault::Device | LeaseFault::Broken { .. }))
        | VoiceFault::Grant(GrantFault::NoBlock { .. } | GrantFault::Broker) => 3,
        VoiceFault::Grant(GrantFault::NoMemory) | VoiceFault::NoMemory => 4,
    }
}

impl<'a, O: Grantor, C: Claim> Voice<O> for Verifying<'a, C> {
    ghost use Rattle.std.specs.Prelude.{[], map};
    ghost use Rattle.zk_model.specs.declared.Side.TheVariants.{Verifier};
    ghost use Rattle.proof_frames.specs.Frames.{frame_value};
    ghost use Rattle.session_verifier.specs.Serving.{grants_of};
    ghost use Rattle.claim_verifier.specs.Hearing.{Known, VerifierTask, known_of, verifier_rules};
    ghost use Rattle.claim_verifier.specs.Rounds.{round_stage};

    type Fault = VoiceFault;

    ghost side = { Verifier };

    ghost Task = { VerifierTask C };

    ghost Known = { Known O };

    ghost rules = { λ t. verifier_rules (grants_of O.answer O.asked O.total O.may O.moves) (C.claim t.claim) t.file t.section_length };

    ghost task = { λ v. record { claim = v.claim.now; file = v.file.now; section_length = v.section } };

    ghost known = { λ v asked. known_of (record {
      given = v.given;
      round = round_stage v.rounds;
      corrections = v.corrections.items;
      answers = map frame_value v.answers.items;
      judged = v.judged;
    }) asked };

    ghost greeting = { λ t. [] };

    fn side(&self) -> Side {
        Side::Verifier
    }

    fn behind(&self, alloc: Global, grant: Grant) -> Result<VecDeque<Expect>, AllocError> {
        claim_behind(alloc, &self.file.params(), self.claim, grant)
    }

    fn code(&self, fault: &VoiceFault) -> u8 {
        code_of(fault)
    }

    fn greeting(&self, alloc: Global) -> Result<Vec<Frame>, AllocError> {
        Ok(Vec::new(alloc))
    }

    fn hear<R: Threads + Sync>(
        &mut self,
        rt: &R,
        alloc: Global,
        _asked: &mut O,
        _place: Expect,
        frame: Frame,
    ) -> Result<(), VoiceFault> {
        replies_are_in_range();
        self.claim.has_places();
        let _total = self.file.total();
        match frame {
            Frame::Hello(hello) => match self.claim.difference(self.file.id(), &hello) {
                Some(differs) => Err(VoiceFault::BadHello(differs)),
                None => Ok(()),
            },
            Frame::ExtendAsk(trees) => {
                let given = the_grant(&self.given);
                Ok(take_asks(rt, alloc, self.file, given, &mut self.rounds, trees)?)
            }
            Frame::Corrections(elements) => {
                self.corrections = elements;
                Ok(())
            }
            Frame::Sums(both) => Ok(keep_answer(&mut self.answers, Frame::Sums(both))?),
            Frame::Openings(macs) => Ok(keep_answer(&mut self.answers, Frame::Openings(macs))?),
            Frame::PolySums(sums) => Ok(keep_answer(&mut self.answers, Frame::PolySums(sums))?),
            _ => unreachable!(),
        }
    }

    fn say<R: Threads + Sync>(
        &mut self,
        rt: &R,
        alloc: Global,
        asked: &mut O,
        place: Expect,
    ) -> Result<Frame, VoiceFault> {
        replies_are_in_range();
        self.claim.has_places();
        let _total = self.file.total();
        match place {
            Expect::Grant => {
                let grant = grant_units(self.claim, self.file, self.section, asked)?;
                self.given = Some(grant);
                Ok(Frame::Grant(grant))
            }
            Expect::Reply { .. } => Ok(Frame::ExtendReply(next_reply(&mut self.rounds))),
            Expect::Challenge => {
                let given = the_grant(&self.given);
                Ok(Frame::Challenge(self.file.challenge(given.start)))
            }
            Expect::Verdict | Expect::PolyVerdict => {
                let given = the_grant(&self.given);
                let judgement = judge(
                    rt,
                    alloc,
                    self.claim,
                    self.file,
                    given,
                    &self.rounds,
                    &self.corrections,
                    &self.answers,
                )?;
                self.judged = Some(judgement);
                Ok(verdict_frame(&judgement))
            }
            _ => unreachable!(),
        }
    }
}
