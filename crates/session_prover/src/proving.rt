// The prover's end of a session.
ghost use Rattle.std.specs.Prelude.{◌≡◌, ℕ, ◌+◌, ◌<◌, ◌≤◌, [], ◌∷◌, None, Some, true, false, map, length, All, Ok, Err, IfOk, IfErr, OnOk, IsSomeAnd, IsTrue, MatchOption};
ghost use Rattle.zk_model.specs.Frames as model;
ghost use Rattle.zk_model.specs.Frames.{Allows};
ghost use Rattle.zk_model.specs.declared.Expect.TheVariants as expect;
ghost use Rattle.zk_model.specs.View.{span_of};
ghost use Rattle.zk_model.specs.declared.Side.TheVariants.{Prover, Verifier};
ghost use Rattle.session_core.specs.declared.fault.ProverFault.{ProverFault};
ghost use Rattle.frame_link.specs.Lines.{snapshot_of};
ghost use Rattle.session_driver.specs.Leaving.{HasCome};
ghost use Rattle.session_driver.specs.Runs.{IsFresh};
ghost use Rattle.session_prover.specs.Notes.{HasEnded, granted_of};
ghost use Rattle.proof_frames.specs.Frames.{frame_value, IsShort};
ghost use Rattle.session_core.specs.Cores.{ProverAnswers, ProverRefuses, StaysWithin, awaits_grant, prover_expects};
ghost use Rattle.session_core.specs.Jobs.{Suits};
ghost use Rattle.session_prover.specs.Outcomes.{prover_fault_outcome};
ghost use Rattle.session_prover.specs.Stages.{AnswersClaimed, Claimed, IsProving, Stops, claimant_tells, outcome_told, proved, proves, proving_expects, prover_frames_left, IsNoGrant, IsRejection, IsSoundJob, IsToAnswer};

use crate::claimant::Claimant;
use crate::note::ProverOutcome;
use claim_store::ClaimFault;
use frame_link::Line;
use proof_frames::{Frame, Grant};
use round_fan::SESSION_WORKERS;
use session_core::{ProverCore, ProverJob};
use session_driver::{Outcome, Party, Refusal, run};
use std::alloc::{AllocError, Global};
use std::thread::Threads;
use zk_model::{Expect, Span};
use zk_port::Link;

/// A prover's end of a session, as the driver leads it.
#[derive(Drop)]
pub(crate) struct Proving<'a> {
    job: &'a ProverJob<'a>,
    core: ProverCore<'a>,
    granted: Option<Span>,
    accepted: bool,
}

/// The grant that a frame in its place is, if it suits the job.
fn grant_in(job: &ProverJob<'_>, frame: Frame) -> Result<Grant, Refusal<ProverOutcome>>
    requires allowed { Allows expect.Grant (frame_value frame) }
    ensures grant { IfOk result (λ grant. frame_value frame ≡ model.grant grant) }
    ensures suits { IfOk result (Suits job.now.file.params job.now.statement.program) }
    ensures refused { IfErr result (λ refusal. IsNoGrant job.now (frame_value frame) refusal.fault) }
    ensures silent { IfErr result (λ refusal. refusal.code ≡ None) }
{
    let fault = match frame {
        Frame::Grant(grant) if job.suits(grant) => return Ok(grant),
        Frame::Grant(_) => ProverOutcome::BadGrant,
        Frame::Refuse { code } => ProverOutcome::PeerRefused { code },
        _ => unreachable!(),
    };
    Err(Refusal { fault, code: None })
}

/// Has the units of a grant claimed.
fn claim_units<C: Claimant>(claimant: &mut C, grant: Grant) -> Result<Span, ClaimFault>
    requires once { C.answer claimant.old ≡ None }
    requires at_least_one { 1 ≤ grant.count }
    ensures claimed { IfOk result (λ span. (span ≡ span_of grant)
        × Claimed (claimant_tells C.asked C.answer C.total C.moves) grant (Ok (span_of grant))
        claimant.old claimant.new) }
    ensures refused { IfErr result (λ fault.
        Claimed (claimant_tells C.asked C.answer C.total C.moves) grant (Err fault) claimant.old claimant.new) }
    ensures within { IfOk result (λ _. grant.start + grant.count ≤ C.total claimant.old) }
{
    claimant.claim(grant.start, grant.count)
}

/// Has the core answer a frame.
fn answer<R: Threads + Sync>(
    rt: &R,
    alloc: Global,
    core: &mut ProverCore<'_>,
    frame: Frame,
) -> Result<Vec<Frame>, Refusal<ProverOutcome>>
    requires expected { IsSomeAnd (prover_expects core.old.job core.old.stage)
        (λ place. Allows place (frame_value frame)) }
    requires within { StaysWithin core.old.job (frame_value frame) }
    ensures answered { IfOk result (λ answer. ProverAnswers core.old.job core.old.stage
        (frame_value frame) (map frame_value answer.items) core.new.stage) }
    ensures refused { IfErr result (λ refusal. (fault : ProverFault)
        × ProverRefuses core.old.job core.old.stage (frame_value frame) fault
        × (refusal.fault ≡ prover_fault_outcome fault) × (refusal.code ≡ None)) }
    ensures job { core.new.job ≡ core.old.job }
{
    match core.step_with(rt, alloc, frame, SESSION_WORKERS) {
        Ok(answer) => Ok(answer),
        Err(fault) => Err(Refusal {
            fault: ProverOutcome::from(fault),
            code: None,
        }),
    }
}

/// Has the units of a grant claimed that suits, and answers it.
fn answer_grant<R: Threads + Sync, C: Claimant>(
    rt: &R,
    alloc: Global,
    job: &ProverJob<'_>,
    core: &mut ProverCore<'_>,
    granted: &mut Option<Span>,
    claimant: &mut C,
    frame: Frame,
) -> Result<Vec<Frame>, Refusal<ProverOutcome>>
    requires job { core.old.job ≡ job.now }
    requires waits { core.old.stage ≡ awaits_grant }
    requires expected { Allows expect.Grant (frame_value frame) }
    requires once { C.answer claimant.old ≡ None }
    requires total { C.total claimant.old ≤ job.now.file.params.total }
    ensures answered { IfOk result (λ answer. AnswersClaimed (claimant_tells C.asked C.answer C.total C.moves)
        (proved core.old granted.old false claimant.old) (frame_value frame) (map frame_value answer.items)
        (proved core.new granted.new false claimant.new)) }
    ensures refused { IfErr result (λ refusal. (refusal.code ≡ None)
        × Stops (claimant_tells C.asked C.answer C.total C.moves)
        (proved core.old granted.old false claimant.old) (frame_value frame) refusal.fault
        (proved core.new granted.new false claimant.new)) }
{
    let grant = grant_in(job, frame)?;
    match claim_units(claimant, grant) {
        Err(refused) => Err(Refusal {
            fault: ProverOutcome::from(refused),
            code: None,
        }),
        Ok(span) => {
            *granted = Some(span);
            answer(rt, alloc, core, Frame::Grant(grant))
        }
    }
}

/// Whether a frame that is a verdict says that every check holds.
fn accepted_in(frame: Frame) -> Result<(), Refusal<ProverOutcome>>
    requires allowed { Allows expect.Verdict (frame_value frame) }
    ensures accepted { OnOk result ((number : ℕ) × (frame_value frame ≡ model.verdict 0 number)) }
    ensures rejected { IfErr result (λ refusal. IsRejection (frame_value frame) refusal.fault) }
    ensures silent { IfErr result (λ refusal. refusal.code ≡ None) }
{
    let fault = match frame {
        Frame::Verdict { code: 0, .. } => return Ok(()),
        Frame::Verdict { code, number } => ProverOutcome::Rejected { code, number },
        _ => unreachable!(),
    };
    Err(Refusal { fault, code: None })
}

/// Whether the prover expects a frame that it answers: replies or the challenge.
fn answers(core: &ProverCore<'_>) -> bool
    ensures yes { result ≡ true → IsToAnswer core.now.stage }
    ensures no { result ≡ false → ¬ IsToAnswer core.now.stage }
{
    matches!(
        core.expects(),
        Some(Expect::Reply { .. } | Expect::Challenge)
    )
}

impl<'a, C: Claimant> Party<C> for Proving<'a> {
    ghost use Rattle.std.specs.Prelude.{[], ◌∷◌, None};
    ghost use Rattle.session_prover.specs.Stages.{IsProving, claimant_tells, prover_frames_left, greeting_frame, proved, proves, proving_expects};

    type Fault = ProverOutcome;

    ghost holds = { λ s asked. IsProving (claimant_tells C.asked C.answer C.total C.moves) s.job.now
        (proved s.core s.granted s.accepted asked) };

    ghost expects = { λ s. proving_expects s.accepted s.core };

    ghost lack_code = { λ s. None };

    ghost greeting = { λ s. greeting_frame s.job.now ∷ [] };

    ghost answers = { λ s asked frame answer t then.
        (proves (claimant_tells C.asked C.answer C.total C.moves)).answers
        (proved s.core s.granted s.accepted asked) frame answer (proved t.core t.granted t.accepted then) };

    ghost refuses = { λ s asked frame fault code t then.
        (proves (claimant_tells C.asked C.answer C.total C.moves)).refuses
        (proved s.core s.granted s.accepted asked) frame fault code
        (proved t.core t.granted t.accepted then) };

    ghost left = { λ s. prover_frames_left s.accepted s.core.stage };

    fn expects(&self) -> Option<Expect> {
        if self.accepted {
            return None;
        }
        self.core.expects()
    }

    fn lack_code(&self) -> Option<u8> {
        None
    }

    fn greeting(&self, alloc: Global) -> Result<Vec<Frame>, AllocError> {
        let mut frames = Vec::new(alloc);
        frames.push(Frame::Hello(self.job.greet()))?;
        Ok(frames)
    }

    fn step<R: Threads + Sync>(
        &mut self,
        rt: &R,
        alloc: Global,
        asked: &mut C,
        frame: Frame,
    ) -> Result<Vec<Frame>, Refusal<ProverOutcome>> {
        if answers(&self.core) {
            return answer(rt, alloc, &mut self.core, frame);
        }
        match self.core.expects() {
            Some(Expect::Grant) => answer_grant(
                rt,
                alloc,
                self.job,
                &mut self.core,
                &mut self.granted,
                asked,
                frame,
            ),
            Some(Expect::Verdict) => {
                accepted_in(frame)?;
                self.accepted = true;
                Ok(Vec::new(alloc))
            }
            _ => unreachable!(),
        }
    }
}

/// What was granted, and how the session ended.
#[derive(Clone, Copy)]
pub(crate) struct Course {
    pub(crate) granted: Option<Span>,
    pub(crate) outcome: ProverOutcome,
}

/// How a session ended for the prover.
fn outcome_of(outcome: Outcome<ProverOutcome>) -> ProverOutcome
    ensures { result ≡ outcome_told outcome }
{
    match outcome {
        Outcome::Done => ProverOutcome::Accepted,
        Outcome::Refused { fault } => fault,
        Outcome::Cut { fault } => ProverOutcome::from(fault),
    }
}

/// A core that has not read anything.
fn core_of<'a>(job: &'a ProverJob<'a>) -> ProverCore<'a>
    ensures { result ≡ record { job = job.now; stage = awaits_grant } }
{
    let (core, _greeting) = ProverCore::new(job);
    core
}

/// The whole session.
pub(crate) fn prove<R: Threads + Sync, C: Claimant, L: Link>(
    rt: &R,
    alloc: Global,
    job: &ProverJob<'_>,
    claimant: &mut C,
    line: &mut Line<L>,
) -> Course
    requires sound { IsSoundJob job.now }
    requires fresh { IsFresh line.old }
    requires side { line.old.side ≡ Prover }
    requires unasked { C.answer claimant.old ≡ None }
    requires total { C.total claimant.old ≤ job.now.file.params.total }
    ensures granted { result.granted ≡ granted_of (C.answer claimant.new) }
    ensures moved { MatchOption (C.answer claimant.new) (claimant.new ≡ claimant.old)
        (λ answer. IsSomeAnd (C.asked claimant.new)
        (λ units. C.moves claimant.old units.0 units.1 answer claimant.new)) }
    ensures ends { HasEnded job.now
        (record { asked = C.asked claimant.new; answer = C.answer claimant.new })
        (snapshot_of line.old) result.outcome (snapshot_of line.new) }
    ensures come { HasCome Verifier (snapshot_of line.old) (snapshot_of line.new) }
    ensures side { line.new.side ≡ Prover }
    ensures open_still { IsTrue line.new.is_open }
{
    let mut proving = Proving {
        job: &*job,
        core: core_of(&*job),
        granted: None,
        accepted: false,
    };
    let outcome = run(rt, alloc, &mut proving, claimant, line);
    Course {
        granted: proving.granted,
        outcome: outcome_of(outcome),
    }
}
