// The verifier's end of a session.
ghost use Rattle.std.specs.Prelude.{◌≡◌, ◌+◌, ◌<◌, ◌≤◌, ℕ, [], ◌∷◌, None, Some, map, length, All, IfSome, IsSome, IfOk, IfErr, OnOk, IsSomeAnd, MatchOption, IsTrue};
ghost use Rattle.zk_model.specs.Frames as model;
ghost use Rattle.zk_model.specs.Frames.{Allows};
ghost use Rattle.zk_model.specs.Audit.{hello_place};
ghost use Rattle.zk_model.specs.declared.Side.TheVariants.{Prover, Verifier};
ghost use Rattle.frame_link.specs.Lines.{snapshot_of};
ghost use Rattle.proof_frames.specs.Frames.{frame_value, IsShort};
ghost use Rattle.session_core.specs.Jobs.{TakesHello, all_jobs, granted_from, noted_job, units_of_job};
ghost use Rattle.zk_model.specs.Transcript.{Hello, IsHello};
ghost use Rattle.zk_model.specs.declared.limits.TheConstants.{MAX_UNITS};
ghost use Rattle.session_core.specs.Cores.{VerifierAnswers, VerifierRefuses, awaits_hello, owes_grant, behind_grant, judgement_at, verifier_expects};
ghost use Rattle.session_driver.specs.Leaving.{HasCome};
ghost use Rattle.session_driver.specs.Runs.{IsFresh};
ghost use Rattle.session_driver.specs.declared.drive.Outcome.TheVariants.{Done};
ghost use Rattle.session_verifier.specs.Outcomes.{hello_code, grant_code, verifier_fault_outcome};
ghost use Rattle.session_verifier.specs.Serving.{VerifierAnswersBehind, GrantsUnits, IsPlace, IsServing, IsToldAs, LacksGrantFrame, Leases, VerifierRefusesBehind, RefusesHello, RefusesLease, verifier_frames_left, grants_of, lack_code_at, served, serves};
ghost use Rattle.session_verifier.specs.Notes.{TakesStatement};
ghost use Rattle.session_verifier.specs.Stages.{AreUnits, IsBehind, Greets, IsCourse, IsHeldJob};
ghost use Rattle.session_verifier.specs.declared.note.VerifierOutcome.TheVariants.{NoMemory};

use crate::note::VerifierOutcome;
use frame_link::Line;
use lease_store::{GrantFault, Grantor, LeaseFault};
use proof_frames::Frame;
use round_fan::SESSION_WORKERS;
use session_core::{VerifierCore, VerifierFault, VerifierJob, VerifierJobs};
use session_driver::{Outcome, Party, Refusal, run};
use session_laws::replies_are_in_range;
use std::alloc::{AllocError, Global};
use std::thread::Threads;
use zk_model::{Expect, Span};
use zk_port::Link;

/// A verifier's end of a session, as the driver leads it: its core is about the statement that was taken, or else about the first.
#[derive(Drop)]
pub(crate) struct Serving<'a> {
    jobs: &'a VerifierJobs<'a>,
    core: VerifierCore<'a>,
    taken: Option<u32>,
    granted: Option<Span>,
}

/// The code of the refusal for a hello that is not met.
fn code_for_hello(fault: &VerifierFault) -> u8
    ensures { result ≡ hello_code fault.now }
{
    match fault {
        VerifierFault::BadHello(_) => 1,
        VerifierFault::NoMemory => 4,
    }
}

/// The code of the refusal for units that are not granted.
fn code_for_grant(fault: &GrantFault) -> u8
    ensures { result ≡ grant_code fault.now }
{
    match fault {
        GrantFault::Lease(LeaseFault::Exhausted { .. }) => 2,
        GrantFault::Lease(LeaseFault::Device | LeaseFault::Broken { .. })
        | GrantFault::NoBlock { .. }
        | GrantFault::Broker => 3,
        GrantFault::NoMemory => 4,
    }
}

/// Takes the first statement that a hello is for, if it is for one.
fn take_statement<'a>(
    jobs: &'a VerifierJobs<'a>,
    core: &mut VerifierCore<'a>,
    taken: &mut Option<u32>,
    frame: &Frame,
)
    requires expected { Allows (hello_place jobs.now.first.task.statement.kind) (frame_value frame.now) }
    ensures takes { (said : Hello) × (frame_value frame.now ≡ model.hello said) × IsHello said
        × TakesHello jobs.now said taken.new }
    ensures place { Allows (hello_place core.new.job.task.statement.kind) (frame_value frame.now) }
    ensures core { core.new ≡ record { job = noted_job jobs.now taken.new; stage = awaits_hello } }
    ensures within { IfSome taken.new (λ n. n < length (all_jobs jobs.now)) }
{
    let Frame::Hello(hello) = frame else {
        unreachable!();
    };
    *taken = jobs.first_for(hello);
    *core = VerifierCore::new(jobs.noted(*taken));
}

/// Has the core meet a hello.
fn meet(
    alloc: Global,
    core: &mut VerifierCore<'_>,
    frame: Frame,
) -> Result<(), Refusal<VerifierOutcome>>
    requires waits { core.old.stage ≡ awaits_hello }
    requires expected { Allows (hello_place core.old.job.task.statement.kind) (frame_value frame) }
    ensures met { OnOk result (Greets core.old.job (frame_value frame)) }
    ensures due { OnOk result (core.new ≡ record core.old { stage = owes_grant }) }
    ensures refused { IfErr result (λ refusal. (fault : VerifierFault)
        × VerifierRefuses core.old.job core.old.stage (frame_value frame) fault
        × (refusal.fault ≡ verifier_fault_outcome fault) × (refusal.code ≡ Some (hello_code fault))) }
    ensures job { core.new.job ≡ core.old.job }
{
    match core.step(alloc, frame) {
        Ok(_answer) => Ok(()),
        Err(fault) => {
            let code = Some(code_for_hello(&fault));
            Err(Refusal {
                fault: VerifierOutcome::from(fault),
                code,
            })
        }
    }
}

/// The frames of a grant that is due.
fn grant_frames(
    alloc: Global,
    core: &mut VerifierCore<'_>,
    span: Span,
) -> Result<Vec<Frame>, AllocError>
    requires due { core.old.stage ≡ owes_grant }
    requires are { AreUnits core.old.job span }
    ensures frames { IfOk result (λ frames.
        map frame_value frames.items ≡ model.grant (granted_from core.old.job span.start) ∷ []) }
    ensures core { core.new ≡ record core.old { stage = behind_grant core.old.job span.start } }
{
    let grant = core.grant(alloc, span);
    let mut frames = Vec::new(alloc);
    frames.push(grant)?;
    Ok(frames)
}

/// Meets a hello, and has units leased: their grant is the answer.
fn grant_units<'a, R: Grantor>(
    alloc: Global,
    jobs: &'a VerifierJobs<'a>,
    core: &mut VerifierCore<'a>,
    taken: &mut Option<u32>,
    granted: &mut Option<Span>,
    grantor: &mut R,
    frame: Frame,
) -> Result<Vec<Frame>, Refusal<VerifierOutcome>>
    requires ungranted { granted.old ≡ None }
    requires place { IsPlace (grants_of R.answer R.asked R.total R.may R.moves)
        (served jobs.now core.old taken.old granted.old grantor.old) None }
    requires expected { Allows (hello_place jobs.now.first.task.statement.kind) (frame_value frame) }
    ensures answered { IfOk result (λ answer.
        GrantsUnits jobs.now (grants_of R.answer R.asked R.total R.may R.moves)
        (served jobs.now core.old taken.old granted.old grantor.old) (frame_value frame)
        (map frame_value answer.items)
        (served jobs.now core.new taken.new granted.new grantor.new)) }
    ensures refused { IfErr result (λ refusal.
        (serves (grants_of R.answer R.asked R.total R.may R.moves)).refuses
        (served jobs.now core.old taken.old granted.old grantor.old) (frame_value frame)
        refusal.fault refusal.code
        (served jobs.now core.new taken.new granted.new grantor.new)) }
    ensures within { IfSome taken.new (λ n. n < length (all_jobs jobs.now)) }
    ensures fewer { OnOk result
        (verifier_frames_left core.new.job core.new.stage < verifier_frames_left core.old.job core.old.stage) }
{
    take_statement(jobs, core, taken, &frame);
    let job = jobs.noted(*taken);
    let _total = job.file().total();
    meet(alloc, core, frame)?;
    match grantor.grant(job.units()) {
        Err(fault) => {
            let code = Some(code_for_grant(&fault));
            Err(Refusal {
                fault: VerifierOutcome::from(fault),
                code,
            })
        }
        Ok(span) => {
            *granted = Some(span);
            match grant_frames(alloc, core, span) {
                Ok(frames) => Ok(frames),
                Err(_) => Err(Refusal {
                    fault: VerifierOutcome::NoMemory,
                    code: Some(4),
                }),
            }
        }
    }
}

/// Has the core answer a frame after the grant.
fn answer<H: Threads + Sync>(
    rt: &H,
    alloc: Global,
    job: &VerifierJob<'_>,
    core: &mut VerifierCore<'_>,
    frame: Frame,
    _span: Span,
) -> Result<Vec<Frame>, Refusal<VerifierOutcome>>
    requires job { core.old.job ≡ job.now }
    requires behind { IsBehind _span.start core.old.stage }
    requires expected { IsSomeAnd (verifier_expects core.old.job core.old.stage)
        (λ place. Allows place (frame_value frame)) }
    ensures answered { IfOk result (λ answer. VerifierAnswers core.old.job core.old.stage
        (frame_value frame) (map frame_value answer.items) core.new.stage) }
    ensures short { IfOk result (λ answer. All IsShort (map frame_value answer.items)) }
    ensures refused { IfErr result (λ refusal. (fault : VerifierFault)
        × VerifierRefuses core.old.job core.old.stage (frame_value frame) fault
        × (refusal.fault ≡ verifier_fault_outcome fault) × (refusal.code ≡ None)) }
    ensures behind { OnOk result (IsBehind _span.start core.new.stage) }
    ensures fewer { OnOk result
        (verifier_frames_left core.new.job core.new.stage < verifier_frames_left core.old.job core.old.stage) }
    ensures job { core.new.job ≡ core.old.job }
    ensures held { IsHeldJob core.old.job }
{
    replies_are_in_range();
    let _total = job.file().total();
    let _held = core.expects();
    match core.step_with(rt, alloc, frame, SESSION_WORKERS) {
        Ok(answer) => Ok(answer),
        Err(fault) => Err(Refusal {
            fault: VerifierOutcome::from(fault),
            code: None,
        }),
    }
}

impl<'a, R: Grantor> Party<R> for Serving<'a> {
    ghost use Rattle.std.specs.Prelude.{[]};
    ghost use Rattle.session_core.specs.Cores.{verifier_expects};
    ghost use Rattle.session_verifier.specs.Serving.{IsServing, verifier_frames_left, grants_of, lack_code_at, served, serves};

    type Fault = VerifierOutcome;

    ghost holds = { λ s asked. IsServing (grants_of R.answer R.asked R.total R.may R.moves)
        (served s.jobs.now s.core s.taken s.granted asked) };

    ghost expects = { λ s. verifier_expects s.core.job s.core.stage };

    ghost lack_code = { λ s. lack_code_at s.core.stage };

    ghost greeting = { λ s. [] };

    ghost answers = { λ s asked frame answer t then.
        (serves (grants_of R.answer R.asked R.total R.may R.moves)).answers
        (served s.jobs.now s.core s.taken s.granted asked) frame answer
        (served t.jobs.now t.core t.taken t.granted then) };

    ghost refuses = { λ s asked frame fault code t then.
        (serves (grants_of R.answer R.asked R.total R.may R.moves)).refuses
        (served s.jobs.now s.core s.taken s.granted asked) frame fault code
        (served t.jobs.now t.core t.taken t.granted then) };

    ghost left = { λ s. verifier_frames_left s.core.job s.core.stage };

    fn expects(&self) -> Option<Expect> {
        self.core.expects()
    }

    fn lack_code(&self) -> Option<u8> {
        match self.core.expects() {
            Some(Expect::Hello | Expect::ShortHello) => Some(4),
            _ => None,
        }
    }

    fn greeting(&self, alloc: Global) -> Result<Vec<Frame>, AllocError> {
        Ok(Vec::new(alloc))
    }

    fn step<H: Threads + Sync>(
        &mut self,
        rt: &H,
        alloc: Global,
        asked: &mut R,
        frame: Frame,
    ) -> Result<Vec<Frame>, Refusal<VerifierOutcome>> {
        match self.granted {
            None => grant_units(
                alloc,
                self.jobs,
                &mut self.core,
                &mut self.taken,
                &mut self.granted,
                asked,
                frame,
            ),
            Some(span) => {
                let job = self.jobs.noted(self.taken);
                answer(rt, alloc, job, &mut self.core, frame, span)
            }
        }
    }
}

/// Which statement was taken, what was granted, and how the session ended.
#[derive(Clone, Copy)]
pub(crate) struct Course {
    pub(crate) taken: Option<u32>,
    pub(crate) granted: Option<Span>,
    pub(crate) outcome: VerifierOutcome,
}

/// How a session ended for the verifier.
fn outcome_of(core: &VerifierCore<'_>, outcome: Outcome<VerifierOutcome>) -> VerifierOutcome
    requires judged { outcome ≡ Done → IsSome (judgement_at core.now.stage) }
    ensures { IsToldAs core.now.stage outcome result }
{
    match outcome {
        Outcome::Done => match core.judgement() {
            Some(judgement) => VerifierOutcome::from(judgement),
            None => unreachable!(),
        },
        Outcome::Refused { fault } => fault,
        Outcome::Cut { fault } => VerifierOutcome::from(fault),
    }
}

/// The whole session.
pub(crate) fn serve<H: Threads + Sync, L: Link, R: Grantor>(
    rt: &H,
    alloc: Global,
    jobs: &VerifierJobs<'_>,
    grantor: &mut R,
    line: &mut Line<L>,
) -> Course
    requires once { R.answer grantor.old ≡ None }
    requires total { R.total grantor.old ≤ jobs.now.first.task.file.params.total }
    requires may { (count : ℕ) → 1 ≤ count → count ≤ MAX_UNITS → R.may grantor.old count }
    requires fresh { IsFresh line.old }
    requires side { line.old.side ≡ Verifier }
    ensures total_kept { R.total grantor.new ≡ R.total grantor.old }
    ensures asked { IfSome (R.answer grantor.new)
        (λ _. R.asked grantor.new ≡ Some (units_of_job (noted_job jobs.now result.taken))) }
    ensures moved { MatchOption (R.answer grantor.new) (grantor.new ≡ grantor.old)
        (λ answer. R.moves grantor.old (units_of_job (noted_job jobs.now result.taken)) answer grantor.new) }
    ensures statement { TakesStatement jobs.now result.taken (R.answer grantor.new)
        result.outcome line.new.log }
    ensures course { IsCourse (noted_job jobs.now result.taken) (R.answer grantor.new) result.granted
        result.outcome (snapshot_of line.old) (snapshot_of line.new) }
    ensures come { HasCome Prover (snapshot_of line.old) (snapshot_of line.new) }
    ensures within { IfSome result.taken (λ n. n < length (all_jobs jobs.now)) }
    ensures side { line.new.side ≡ Verifier }
    ensures open_still { IsTrue line.new.is_open }
{
    replies_are_in_range();
    let _count = jobs.count();
    let mut serving = Serving {
        jobs: &*jobs,
        core: VerifierCore::new(jobs.noted(None)),
        taken: None,
        granted: None,
    };
    let outcome = run(rt, alloc, &mut serving, grantor, line);
    Course {
        taken: serving.taken,
        granted: serving.granted,
        outcome: outcome_of(&serving.core, outcome),
    }
}
