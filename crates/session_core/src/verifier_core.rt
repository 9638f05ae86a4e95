// The verifier's end of a session, frame by frame.
ghost use Rattle.std.specs.Prelude.{◌≡◌, ◌+◌, ◌≤◌, ℕ, [], ◌∷◌, length, map, true, false, All, IfOk, IfErr, OnErr, IfSome, IsSomeAnd};
ghost use Rattle.zk_model.specs.Frames.{Allows, AreAsks};
ghost use Rattle.zk_model.specs.View.{verdict_code, verdict_number};
ghost use Rattle.zk_model.specs.Frames as model;
ghost use Rattle.proof_frames.specs.Frames.{frame_value};
ghost use Rattle.wire_auth.specs.Held.{items_in};
ghost use Rattle.proof_frames.specs.Readings.{IsShortPlace};
ghost use Rattle.session_core.specs.Jobs.{units_of_job, granted_from};
ghost use Rattle.session_core.specs.Judgements.{verdict_in};
ghost use Rattle.zk_model.specs.Audit.{hello_place};
ghost use Rattle.zk_model.specs.declared.Expect.TheVariants as expect;
ghost use Rattle.zk_model.specs.declared.Kind.TheVariants.{Extended};
ghost use Rattle.zk_model.specs.Program.{section_count};
ghost use Rattle.round_fan.specs.Fans.{lists_of};
ghost use Rattle.session_core.specs.Fixing.{HoldsKeys};
ghost use Rattle.session_core.specs.Cores.{AnswersAsks, VerifierAnswers, VerifierRefuses, IsVerifierStage, awaits_hello, owes_grant, behind_grant, awaits_asks, awaits_corrections, awaits_sums, awaits_openings, has_refused, verifier_expects, judgement_at};

use crate::fault::VerifierFault;
use crate::hellos::difference;
use crate::judgement::Judgement;
use crate::prover_job::units_of;
use crate::round_frames::reply_frames;
use crate::verifier_job::VerifierJob;
use crate::workers::{Fan, OneThread, Workers};
use mersenne_field::Fe;
use proof_frames::Frame;
use std::alloc::{AllocError, Global};
use std::marker::Model;
use std::mem;
use std::thread::Threads;
use tree_messages::TreeAsk;
use vole_extend::columns_of;
use wire_auth::Correlations;
use zk_model::{Expect, Kind, Params, Span, Verdict};

/// What the verifier waits for, with the first unit of its grant, what it has taken since, and its keys once they are fixed.
#[derive(Debug, Drop)]
pub(crate) enum Stage<'a> {
    Hello,
    Grant,
    Asks {
        start: u64,
        asked: Vec<Vec<TreeAsk>>,
    },
    Corrections {
        start: u64,
        keys: Correlations<'a, Fe>,
    },
    Sums {
        start: u64,
        keys: Correlations<'a, Fe>,
        corrections: Vec<Fe>,
    },
    Openings {
        start: u64,
        keys: Correlations<'a, Fe>,
        corrections: Vec<Fe>,
        sums: Vec<(Fe, Fe)>,
    },
    Judged {
        start: u64,
        judgement: Judgement,
    },
    Refused,
}

/// A verifier in a session (Weng, Yang, Katz and Wang, Wolverine, IEEE S&P 2021; Yang, Sarkar, Weng and Wang, QuickSilver, ACM
/// CCS 2021). It expects the hello, then owes a grant, and expects in kind extended the asks for each unit, then corrections, sums
/// and openings; then it has judged.
#[derive(Debug, Drop)]
pub struct VerifierCore<'a> {
    job: &'a VerifierJob<'a>,
    stage: Stage<'a>,
}

impl<'a> Model for VerifierCore<'a> {
    ghost use Rattle.session_core.specs.Cores as cores;
    ghost use Rattle.session_core.specs.Stages.{verifier_stage, HoldsKeysAt};

    ghost Value = { cores.VerifierState };

    ghost view = { λ c. record { job = c.job.now; stage = verifier_stage c.stage } };

    ghost invariant = { λ c. cores.IsVerifierStage c.job.now (verifier_stage c.stage)
        × HoldsKeysAt c.job.now c.stage };
}

/// The frame of a verdict.
fn verdict_frame(judgement: &Judgement) -> Frame
    ensures { frame_value result ≡ model.verdict (verdict_code (verdict_in judgement.now))
        (verdict_number (verdict_in judgement.now)) }
{
    match judgement.verdict() {
        Verdict::Accepted => Frame::Verdict { code: 0, number: 0 },
        Verdict::RejectedSum { section } => Frame::Verdict {
            code: 1,
            number: section,
        },
        Verdict::RejectedOpening { output } => Frame::Verdict {
            code: 2,
            number: output,
        },
    }
}

/// A list of one frame.
pub(crate) fn one_frame(alloc: Global, frame: Frame) -> Result<Vec<Frame>, AllocError>
    ensures { IfOk result (λ frames. frames.items ≡ frame ∷ []) }
{
    let mut frames = Vec::new(alloc);
    frames.push(frame)?;
    Ok(frames)
}

impl<'a> VerifierCore<'a> {
    /// A verifier that waits for the hello.
    pub fn new(job: &'a VerifierJob<'a>) -> Self
        ensures { result ≡ record { job = job.now; stage = awaits_hello } }
    {
        VerifierCore {
            job,
            stage: Stage::Hello,
        }
    }

    /// The frame that it expects: none exactly where its own grant is due, or where it has judged or refused.
    pub fn expects(&self) -> Option<Expect>
        ensures stage { result ≡ verifier_expects self.now.job self.now.stage }
        ensures short { IfSome result IsShortPlace }
        ensures held { IsVerifierStage self.now.job self.now.stage }
    {
        let program = self.job.statement().program();
        let _products = program.products();
        let Params { height, trees, .. } = self.job.file().params();
        match &self.stage {
            Stage::Hello => Some(self.job.statement().hello_place()),
            Stage::Asks { asked, .. } => Some(Expect::Ask {
                height: usize::from(height),
                trees: trees as usize,
                units_left: self.job.units() as usize - asked.len(),
            }),
            Stage::Corrections { .. } => Some(Expect::Corrections {
                count: program.givens(),
            }),
            Stage::Sums { .. } => {
                let sections = program.sections(u64::from(self.job.section())) as usize;
                Some(Expect::Sums { sections })
            }
            Stage::Openings { .. } => Some(Expect::Openings {
                count: program.opened().len(),
            }),
            Stage::Grant | Stage::Judged { .. } | Stage::Refused => None,
        }
    }

    /// What it found, once it has judged.
    pub fn judgement(&self) -> Option<Judgement>
        ensures { result ≡ judgement_at self.now.stage }
    {
        match &self.stage {
            Stage::Judged { judgement, .. } => Some(*judgement),
            _ => None,
        }
    }

    /// Its grant, where it is due: of a span of its units that lies in its file.
    pub fn grant(&mut self, alloc: Global, span: Span) -> Frame
        requires due { self.old.stage ≡ owes_grant }
        requires units { span.end ≡ span.start + units_of_job self.old.job }
        requires within { span.end ≤ self.old.job.task.file.params.total }
        ensures frame { frame_value result ≡ model.grant (granted_from self.old.job span.start) }
        ensures stage { self.new ≡ record self.old { stage = behind_grant self.old.job span.start } }
    {
        let start = span.start;
        let grant = self.job.grant(start);
        self.stage = match self.job.file().params().kind {
            Kind::Direct => Stage::Corrections {
                start,
                keys: Correlations::Dealt(self.job.dealt_keys(start)),
            },
            Kind::Extended => Stage::Asks {
                start,
                asked: Vec::new(alloc),
            },
        };
        Frame::Grant(grant)
    }

    /// Takes a frame that it expects, and hands back what it answers.
    ///
    /// # Errors
    ///
    /// `BadHello` where a hello is not one for its file and statement, with what differs first; `NoMemory`. It then expects
    /// nothing more. That a check fails is no error: the verdict says it.
    pub fn step(&mut self, alloc: Global, frame: Frame) -> Result<Vec<Frame>, VerifierFault>
        requires expected { IsSomeAnd (verifier_expects self.old.job self.old.stage)
            (λ expect. Allows expect (frame_value frame)) }
        ensures answered { IfOk result (λ answer. VerifierAnswers self.old.job self.old.stage
            (frame_value frame) (map frame_value answer.items) self.new.stage) }
        ensures refused { IfErr result (VerifierRefuses self.old.job self.old.stage (frame_value frame)) }
        ensures ended { OnErr result (self.new.stage ≡ has_refused) }
        ensures job { self.new.job ≡ self.old.job }
    {
        self.advance(&OneThread, alloc, frame)
    }

    /// Does the same, and has so many workers for the rounds of all units.
    ///
    /// # Errors
    ///
    /// As `step`.
    pub fn step_with<R: Threads + Sync>(
        &mut self,
        rt: &R,
        alloc: Global,
        frame: Frame,
        workers: u32,
    ) -> Result<Vec<Frame>, VerifierFault>
        requires some { 1 ≤ workers }
        requires few { workers ≤ 1024 }
        requires expected { IsSomeAnd (verifier_expects self.old.job self.old.stage)
            (λ expect. Allows expect (frame_value frame)) }
        ensures answered { IfOk result (λ answer. VerifierAnswers self.old.job self.old.stage
            (frame_value frame) (map frame_value answer.items) self.new.stage) }
        ensures refused { IfErr result (VerifierRefuses self.old.job self.old.stage (frame_value frame)) }
        ensures ended { OnErr result (self.new.stage ≡ has_refused) }
        ensures job { self.new.job ≡ self.old.job }
    {
        self.advance(&Fan::new(rt, workers), alloc, frame)
    }

    /// Does the same, and has the rounds of all units done so.
    fn advance<H: Workers>(
        &mut self,
        workers: &H,
        alloc: Global,
        frame: Frame,
    ) -> Result<Vec<Frame>, VerifierFault>
        requires ready { H.is_ready workers.now }
        requires expected { IsSomeAnd (verifier_expects self.old.job self.old.stage)
            (λ expect. Allows expect (frame_value frame)) }
        ensures answered { IfOk result (λ answer. VerifierAnswers self.old.job self.old.stage
            (frame_value frame) (map frame_value answer.items) self.new.stage) }
        ensures refused { IfErr result (VerifierRefuses self.old.job self.old.stage (frame_value frame)) }
        ensures ended { OnErr result (self.new.stage ≡ has_refused) }
        ensures job { self.new.job ≡ self.old.job }
    {
        match mem::replace(&mut self.stage, Stage::Refused) {
            Stage::Hello => self.meet(alloc, frame),
            Stage::Asks { start, asked } => {
                Ok(self.take_asks(workers, alloc, start, asked, frame)?)
            }
            Stage::Corrections { start, keys } => {
                Ok(self.take_corrections(alloc, start, keys, frame)?)
            }
            Stage::Sums {
                start,
                keys,
                corrections,
            } => Ok(self.take_sums(alloc, start, keys, corrections, frame)),
            Stage::Openings {
                start,
                keys,
                corrections,
                sums,
            } => Ok(self.take_openings(workers, alloc, start, keys, corrections, sums, frame)?),
            Stage::Grant | Stage::Judged { .. } | Stage::Refused => unreachable!(),
        }
    }

    /// Meets a hello: one for its file and statement leaves its grant due.
    fn meet(&mut self, alloc: Global, frame: Frame) -> Result<Vec<Frame>, VerifierFault>
        requires expected { Allows (hello_place self.old.job.task.statement.kind) (frame_value frame) }
        ensures answered { IfOk result (λ answer. VerifierAnswers self.old.job awaits_hello
            (frame_value frame) (map frame_value answer.items) self.new.stage) }
        ensures refused { IfErr result (VerifierRefuses self.old.job awaits_hello (frame_value frame)) }
        ensures ended { OnErr result (self.new.stage ≡ self.old.stage) }
        ensures job { self.new.job ≡ self.old.job }
    {
        let Frame::Hello(hello) = frame else {
            unreachable!();
        };
        let id = self.job.file().id();
        if let Some(differs) = difference(id, self.job.statement(), &hello) {
            return Err(VerifierFault::BadHello(differs));
        }
        self.stage = Stage::Grant;
        Ok(Vec::new(alloc))
    }

    /// Takes the asks for a unit; after those for the last it answers by the replies to all.
    fn take_asks<H: Workers>(
        &mut self,
        workers: &H,
        alloc: Global,
        start: u64,
        asked: Vec<Vec<TreeAsk>>,
        frame: Frame,
    ) -> Result<Vec<Frame>, AllocError>
        requires ready { H.is_ready workers.now }
        requires held { IsVerifierStage self.old.job (awaits_asks start (lists_of asked.items)) }
        requires expected { (left : ℕ) × Allows (expect.Ask self.old.job.task.file.params.height
            self.old.job.task.file.params.trees left) (frame_value frame) }
        ensures answered { IfOk result (λ answer. VerifierAnswers self.old.job
            (awaits_asks start (lists_of asked.items))
            (frame_value frame) (map frame_value answer.items) self.new.stage) }
        ensures ended { OnErr result (self.new.stage ≡ self.old.stage) }
        ensures job { self.new.job ≡ self.old.job }
    {
        let Frame::ExtendAsk(trees) = frame else {
            unreachable!();
        };
        let mut asked = asked;
        asked.push(trees)?;
        self.answer_asks(workers, alloc, start, asked)
    }

    /// Answers the asks for so many units: as long as others are missing, it waits for these.
    fn answer_asks<H: Workers>(
        &mut self,
        workers: &H,
        alloc: Global,
        start: u64,
        asked: Vec<Vec<TreeAsk>>,
    ) -> Result<Vec<Frame>, AllocError>
        requires ready { H.is_ready workers.now }
        requires extended { self.old.job.task.file.params.kind ≡ Extended }
        requires within { start + units_of_job self.old.job ≤ self.old.job.task.file.params.total }
        requires bounded { length asked.items ≤ units_of_job self.old.job }
        requires each { All (AreAsks self.old.job.task.file.params.height
            self.old.job.task.file.params.trees) (lists_of asked.items) }
        ensures answered { IfOk result (λ answer. AnswersAsks self.old.job start
            (lists_of asked.items) (map frame_value answer.items) self.new.stage) }
        ensures ended { OnErr result (self.new.stage ≡ self.old.stage) }
        ensures job { self.new.job ≡ self.old.job }
    {
        if asked.len() < self.job.units() as usize {
            self.stage = Stage::Asks { start, asked };
            return Ok(Vec::new(alloc));
        }
        let file = self.job.file();
        let _total = file.total();
        let columns = columns_of(alloc, &file.params(), &file.code_seed())?;
        let span = units_of(self.job.grant(start));
        let reply = workers.replies(alloc, file, &columns, span, &asked)?;
        let answer = reply_frames(alloc, reply.replies)?;
        self.stage = Stage::Corrections {
            start,
            keys: Correlations::Made(reply.keys),
        };
        Ok(answer)
    }

    /// Takes corrections, and answers by the challenge.
    fn take_corrections(
        &mut self,
        alloc: Global,
        start: u64,
        keys: Correlations<'a, Fe>,
        frame: Frame,
    ) -> Result<Vec<Frame>, AllocError>
        requires within { start + units_of_job self.old.job ≤ self.old.job.task.file.params.total }
        requires keys { HoldsKeys self.old.job start (items_in keys) }
        requires expected { Allows (expect.Corrections self.old.job.task.statement.program.givens)
            (frame_value frame) }
        ensures answered { IfOk result (λ answer. VerifierAnswers self.old.job (awaits_corrections start)
            (frame_value frame) (map frame_value answer.items) self.new.stage) }
        ensures ended { OnErr result (self.new.stage ≡ self.old.stage) }
        ensures job { self.new.job ≡ self.old.job }
    {
        let Frame::Corrections(corrections) = frame else {
            unreachable!();
        };
        let _total = self.job.file().total();
        let challenge = one_frame(alloc, Frame::Challenge(self.job.challenge(start)))?;
        self.stage = Stage::Sums {
            start,
            keys,
            corrections,
        };
        Ok(challenge)
    }

    /// Takes sums.
    fn take_sums(
        &mut self,
        alloc: Global,
        start: u64,
        keys: Correlations<'a, Fe>,
        corrections: Vec<Fe>,
        frame: Frame,
    ) -> Vec<Frame>
        requires held { IsVerifierStage self.old.job (awaits_sums start corrections.items) }
        requires keys { HoldsKeys self.old.job start (items_in keys) }
        requires expected { Allows (expect.Sums (section_count self.old.job.task.statement.program
            self.old.job.section_length)) (frame_value frame) }
        ensures answered { VerifierAnswers self.old.job
            (awaits_sums start corrections.items)
            (frame_value frame) (map frame_value result.items) self.new.stage }
        ensures job { self.new.job ≡ self.old.job }
    {
        let Frame::Sums(sums) = frame else {
            unreachable!();
        };
        self.stage = Stage::Openings {
            start,
            keys,
            corrections,
            sums,
        };
        Vec::new(alloc)
    }

    /// Takes openings, and answers by its verdict.
    fn take_openings<H: Workers>(
        &mut self,
        workers: &H,
        alloc: Global,
        start: u64,
        keys: Correlations<'a, Fe>,
        corrections: Vec<Fe>,
        sums: Vec<(Fe, Fe)>,
        frame: Frame,
    ) -> Result<Vec<Frame>, AllocError>
        requires ready { H.is_ready workers.now }
        requires held { IsVerifierStage self.old.job (awaits_openings start corrections.items sums.items) }
        requires keys { HoldsKeys self.old.job start (items_in keys) }
        requires expected { Allows (expect.Openings (length self.old.job.task.statement.program.opened))
            (frame_value frame) }
        ensures answered { IfOk result (λ answer. VerifierAnswers self.old.job
            (awaits_openings start corrections.items sums.items)
            (frame_value frame) (map frame_value answer.items) self.new.stage) }
        ensures ended { OnErr result (self.new.stage ≡ self.old.stage) }
        ensures job { self.new.job ≡ self.old.job }
    {
        let Frame::Openings(openings) = frame else {
            unreachable!();
        };
        let keys = keys.as_slice();
        let judgement = self.job.judge(
            workers,
            alloc,
            start,
            keys,
            &corrections,
            &sums,
            &openings,
        )?;
        let verdict = one_frame(alloc, verdict_frame(&judgement))?;
        self.stage = Stage::Judged { start, judgement };
        Ok(verdict)
    }
}
