// The prover's end of a session, frame by frame.
ghost use Rattle.std.specs.Prelude.{◌≡◌, ◌*◌, ◌≤◌, ℕ, [], ◌∷◌, length, map, vec_len, All, IfOk, IfErr, OnErr, IfSome, IsSomeAnd};
ghost use Rattle.zk_model.specs.Files.{correlations_per_unit};
ghost use Rattle.zk_model.specs.Frames.{Allows, AreReplies};
ghost use Rattle.zk_model.specs.Frames as model;
ghost use Rattle.zk_model.specs.Transcript.{IsGrant, wanted_hello};
ghost use Rattle.zk_model.specs.declared.Expect.TheVariants as expect;
ghost use Rattle.zk_model.specs.declared.Kind.TheVariants.{Extended};
ghost use Rattle.proof_frames.specs.Frames.{frame_value};
ghost use Rattle.proof_frames.specs.Readings.{IsShortPlace};
ghost use Rattle.wire_auth.specs.Held.{items_in};
ghost use Rattle.round_fan.specs.Fans.{lists_of};
ghost use Rattle.session_core.specs.Fixing.{IsFixedUnder, IsGrowing, pairs_fixed};
ghost use Rattle.session_core.specs.Cores.{AnswersGrant, Commits, GoesOn, ProverAnswers, ProverRefuses, StaysWithin, awaits_grant, awaits_replies, awaits_challenge, awaits_verdict, has_ended, prover_expects};

use crate::extending::ask_units;
use crate::fault::ProverFault;
use crate::prover_job::{ProverJob, units_of};
use crate::verifier_core::one_frame;
use crate::workers::{Fan, OneThread, Workers};
use mersenne_field::Pair;
use proof_frames::{Frame, Grant};
use std::alloc::{AllocError, Global};
use std::marker::Model;
use std::mem;
use std::thread::Threads;
use tree_messages::TreeReply;
use vole_extend::columns_of;
use wire_auth::Correlations;
use zk_model::{Expect, Kind, Params};

/// What the prover waits for, with the grant, the replies that have come, unit by unit, or the pairs of all correlations, which its
/// corrections have fixed.
#[derive(Debug, Drop)]
pub(crate) enum Stage<'a> {
    Grant,
    Replies {
        grant: Grant,
        came: Vec<Vec<TreeReply>>,
    },
    Challenge {
        grant: Grant,
        pairs: Correlations<'a, Pair>,
    },
    Verdict,
    Ended,
}

/// A prover in a session (Weng, Yang, Katz and Wang, Wolverine, IEEE S&P 2021; Yang, Sarkar, Weng and Wang, QuickSilver, ACM
/// CCS 2021). It has greeted, and expects a grant, in kind extended the replies for each unit, the challenge, and the verdict.
#[derive(Debug, Drop)]
pub struct ProverCore<'a> {
    job: &'a ProverJob<'a>,
    stage: Stage<'a>,
}

impl<'a> Model for ProverCore<'a> {
    ghost use Rattle.session_core.specs.Cores as cores;
    ghost use Rattle.session_core.specs.Stages.{prover_stage, IsHeldAt};

    ghost Value = { cores.ProverState };

    ghost view = { λ c. record { job = c.job.now; stage = prover_stage c.job.now c.stage } };

    ghost invariant = { λ c. IsHeldAt c.job.now c.stage };
}

/// A list of two frames.
fn two_frames(alloc: Global, first: Frame, second: Frame) -> Result<Vec<Frame>, AllocError>
    ensures { IfOk result (λ frames. frames.items ≡ first ∷ second ∷ []) }
{
    let mut frames = Vec::new(alloc);
    frames.push(first)?;
    frames.push(second)?;
    Ok(frames)
}

/// What answers a challenge: sums and openings.
fn opened<H: Workers>(
    workers: &H,
    alloc: Global,
    job: &ProverJob<'_>,
    grant: Grant,
    pairs: &[Pair],
    frame: Frame,
) -> Result<Vec<Frame>, AllocError>
    requires ready { H.is_ready workers.now }
    requires held { IsFixedUnder job.now grant pairs.now }
    requires expected { Allows expect.Challenge (frame_value frame) }
    ensures answered { IfOk result (λ answer. ProverAnswers job.now
        (awaits_challenge grant pairs.now (pairs_fixed job.now pairs.now))
        (frame_value frame) (map frame_value answer.items) awaits_verdict) }
{
    let Frame::Challenge(challenge) = frame else {
        unreachable!();
    };
    let opened = job.open(workers, alloc, grant, pairs, challenge)?;
    let sums = Frame::Sums(opened.sums);
    two_frames(alloc, sums, Frame::Openings(opened.openings))
}

impl<'a> ProverCore<'a> {
    /// A prover that waits for a grant, and its greeting.
    pub fn new(job: &'a ProverJob<'a>) -> (Self, Frame)
        ensures core { result.0 ≡ record { job = job.now; stage = awaits_grant } }
        ensures greeting { frame_value result.1
            ≡ model.hello (wanted_hello job.now.file.id job.now.statement) }
    {
        let core = ProverCore {
            job,
            stage: Stage::Grant,
        };
        (core, Frame::Hello(job.greet()))
    }

    /// The frame that it expects: none exactly where it has ended.
    pub fn expects(&self) -> Option<Expect>
        ensures stage { result ≡ prover_expects self.now.job self.now.stage }
        ensures short { IfSome result IsShortPlace }
    {
        let Params { height, trees, .. } = self.job.file().params();
        match &self.stage {
            Stage::Grant => Some(Expect::Grant),
            Stage::Replies { grant, came } => Some(Expect::Reply {
                height: usize::from(height),
                trees: trees as usize,
                units_left: grant.count as usize - came.len(),
            }),
            Stage::Challenge { .. } => Some(Expect::Challenge),
            Stage::Verdict => Some(Expect::Verdict),
            Stage::Ended => None,
        }
    }

    /// Takes a frame that it expects, and hands back what it answers. A grant that suits its statement lies in its file.
    ///
    /// # Errors
    ///
    /// `BadGrant` where a grant does not suit, `PeerRefused` where a refusal comes in its place, `NoMemory`. It then has
    /// ended.
    pub fn step(&mut self, alloc: Global, frame: Frame) -> Result<Vec<Frame>, ProverFault>
        requires expected { IsSomeAnd (prover_expects self.old.job self.old.stage)
            (λ stage. Allows stage (frame_value frame)) }
        requires within { StaysWithin self.old.job (frame_value frame) }
        ensures answered { IfOk result (λ answer. ProverAnswers self.old.job self.old.stage
            (frame_value frame) (map frame_value answer.items) self.new.stage) }
        ensures refused { IfErr result (ProverRefuses self.old.job self.old.stage (frame_value frame)) }
        ensures ended { OnErr result (self.new.stage ≡ has_ended) }
        ensures job { self.new.job ≡ self.old.job }
    {
        self.advance(&OneThread, alloc, frame)
    }

    /// Does the same, and has so many workers for the rounds of all units.
    ///
    /// # Errors
    ///
    /// As `step`.
    pub fn step_with<R: Threads + Sync>(
        &mut self,
        rt: &R,
        alloc: Global,
        frame: Frame,
        workers: u32,
    ) -> Result<Vec<Frame>, ProverFault>
        requires some { 1 ≤ workers }
        requires few { workers ≤ 1024 }
        requires expected { IsSomeAnd (prover_expects self.old.job self.old.stage)
            (λ stage. Allows stage (frame_value frame)) }
        requires within { StaysWithin self.old.job (frame_value frame) }
        ensures answered { IfOk result (λ answer. ProverAnswers self.old.job self.old.stage
            (frame_value frame) (map frame_value answer.items) self.new.stage) }
        ensures refused { IfErr result (ProverRefuses self.old.job self.old.stage (frame_value frame)) }
        ensures ended { OnErr result (self.new.stage ≡ has_ended) }
        ensures job { self.new.job ≡ self.old.job }
    {
        self.advance(&Fan::new(rt, workers), alloc, frame)
    }

    /// Does the same, and has the rounds of all units done so.
    fn advance<H: Workers>(
        &mut self,
        workers: &H,
        alloc: Global,
        frame: Frame,
    ) -> Result<Vec<Frame>, ProverFault>
        requires ready { H.is_ready workers.now }
        requires expected { IsSomeAnd (prover_expects self.old.job self.old.stage)
            (λ stage. Allows stage (frame_value frame)) }
        requires within { StaysWithin self.old.job (frame_value frame) }
        ensures answered { IfOk result (λ answer. ProverAnswers self.old.job self.old.stage
            (frame_value frame) (map frame_value answer.items) self.new.stage) }
        ensures refused { IfErr result (ProverRefuses self.old.job self.old.stage (frame_value frame)) }
        ensures ended { OnErr result (self.new.stage ≡ has_ended) }
        ensures job { self.new.job ≡ self.old.job }
    {
        match mem::replace(&mut self.stage, Stage::Ended) {
            Stage::Grant => self.take_grant(alloc, frame),
            Stage::Replies { grant, came } => {
                Ok(self.take_replies(workers, alloc, grant, came, frame)?)
            }
            Stage::Challenge { grant, pairs } => {
                Ok(self.take_challenge(workers, alloc, grant, pairs, frame)?)
            }
            Stage::Verdict => Ok(Vec::new(alloc)),
            Stage::Ended => unreachable!(),
        }
    }

    /// Takes a grant, and answers by the corrections, or in kind extended by the asks for all units.
    fn take_grant(&mut self, alloc: Global, frame: Frame) -> Result<Vec<Frame>, ProverFault>
        requires expected { Allows expect.Grant (frame_value frame) }
        requires within { StaysWithin self.old.job (frame_value frame) }
        ensures answered { IfOk result (λ answer. ProverAnswers self.old.job awaits_grant
            (frame_value frame) (map frame_value answer.items) self.new.stage) }
        ensures refused { IfErr result (ProverRefuses self.old.job awaits_grant (frame_value frame)) }
        ensures ended { OnErr result (self.new.stage ≡ self.old.stage) }
        ensures job { self.new.job ≡ self.old.job }
    {
        match frame {
            Frame::Grant(grant) => {
                if !self.job.suits(grant) {
                    return Err(ProverFault::BadGrant);
                }
                Ok(self.answer_grant(alloc, grant)?)
            }
            Frame::Refuse { code } => Err(ProverFault::PeerRefused { code }),
            _ => unreachable!(),
        }
    }

    /// Answers a grant that suits.
    fn answer_grant(&mut self, alloc: Global, grant: Grant) -> Result<Vec<Frame>, AllocError>
        requires granted { IsGrant self.old.job.file.params self.old.job.statement.program grant }
        ensures answered { IfOk result (λ answer.
            AnswersGrant self.old.job grant (map frame_value answer.items) self.new.stage) }
        ensures ended { OnErr result (self.new.stage ≡ self.old.stage) }
        ensures job { self.new.job ≡ self.old.job }
    {
        let file = self.job.file();
        match file.params().kind {
            Kind::Direct => {
                let pairs = Correlations::Dealt(self.job.dealt_pairs(grant));
                self.commit(alloc, grant, pairs)
            }
            Kind::Extended => {
                let answer = ask_units(alloc, file, grant)?;
                self.stage = Stage::Replies {
                    grant,
                    came: Vec::new(alloc),
                };
                Ok(answer)
            }
        }
    }

    /// Takes the replies for a unit; after those for the last it answers by the corrections.
    fn take_replies<H: Workers>(
        &mut self,
        workers: &H,
        alloc: Global,
        grant: Grant,
        came: Vec<Vec<TreeReply>>,
        frame: Frame,
    ) -> Result<Vec<Frame>, AllocError>
        requires ready { H.is_ready workers.now }
        requires growing { IsGrowing self.old.job grant (lists_of came.items) }
        requires expected { (left : ℕ) × Allows (expect.Reply self.old.job.file.params.height
            self.old.job.file.params.trees left) (frame_value frame) }
        ensures answered { IfOk result (λ answer. ProverAnswers self.old.job
            (awaits_replies grant (lists_of came.items))
            (frame_value frame) (map frame_value answer.items) self.new.stage) }
        ensures ended { OnErr result (self.new.stage ≡ self.old.stage) }
        ensures job { self.new.job ≡ self.old.job }
    {
        let Frame::ExtendReply(trees) = frame else {
            unreachable!();
        };
        let mut came = came;
        came.push(trees)?;
        self.go_on(workers, alloc, grant, came)
    }

    /// Goes on with the replies of so many units: as long as others are missing, it waits for these.
    fn go_on<H: Workers>(
        &mut self,
        workers: &H,
        alloc: Global,
        grant: Grant,
        came: Vec<Vec<TreeReply>>,
    ) -> Result<Vec<Frame>, AllocError>
        requires ready { H.is_ready workers.now }
        requires extended { self.old.job.file.params.kind ≡ Extended }
        requires granted { IsGrant self.old.job.file.params self.old.job.statement.program grant }
        requires bounded { vec_len came ≤ grant.count }
        requires each { All (AreReplies self.old.job.file.params.height self.old.job.file.params.trees)
            (lists_of came.items) }
        ensures answered { IfOk result (λ answer. GoesOn self.old.job grant
            (lists_of came.items) (map frame_value answer.items) self.new.stage) }
        ensures ended { OnErr result (self.new.stage ≡ self.old.stage) }
        ensures job { self.new.job ≡ self.old.job }
    {
        if came.len() < grant.count as usize {
            self.stage = Stage::Replies { grant, came };
            return Ok(Vec::new(alloc));
        }
        let file = self.job.file();
        let columns = columns_of(alloc, &file.params(), &file.code_seed())?;
        let pairs = workers.pairs(alloc, file, &columns, units_of(grant), &came)?;
        self.commit(alloc, grant, Correlations::Made(pairs))
    }

    /// Takes the challenge, and answers by the sums and the openings.
    fn take_challenge<H: Workers>(
        &mut self,
        workers: &H,
        alloc: Global,
        grant: Grant,
        pairs: Correlations<'a, Pair>,
        frame: Frame,
    ) -> Result<Vec<Frame>, AllocError>
        requires ready { H.is_ready workers.now }
        requires held { IsFixedUnder self.old.job grant (items_in pairs) }
        requires expected { Allows expect.Challenge (frame_value frame) }
        ensures answered { IfOk result (λ answer. ProverAnswers self.old.job
            (awaits_challenge grant (items_in pairs.entry) (pairs_fixed self.old.job (items_in pairs.entry)))
            (frame_value frame) (map frame_value answer.items) self.new.stage) }
        ensures ended { OnErr result (self.new.stage ≡ self.old.stage) }
        ensures job { self.new.job ≡ self.old.job }
    {
        let answer = opened(workers, alloc, self.job, grant, pairs.as_slice(), frame)?;
        self.stage = Stage::Verdict;
        Ok(answer)
    }

    /// Answers by the corrections of these pairs of all correlations.
    fn commit(
        &mut self,
        alloc: Global,
        grant: Grant,
        pairs: Correlations<'a, Pair>,
    ) -> Result<Vec<Frame>, AllocError>
        requires granted { IsGrant self.old.job.file.params self.old.job.statement.program grant }
        requires count { length (items_in pairs)
            ≡ grant.count * correlations_per_unit self.old.job.file.params }
        ensures answered { IfOk result (λ answer.
            Commits self.old.job grant (items_in pairs.entry) (map frame_value answer.items) self.new.stage) }
        ensures ended { OnErr result (self.new.stage ≡ self.old.stage) }
        ensures job { self.new.job ≡ self.old.job }
    {
        let _params = self.job.file().params();
        let corrections = self.job.commit(alloc, grant, pairs.as_slice())?;
        let answer = one_frame(alloc, Frame::Corrections(corrections))?;
        self.stage = Stage::Challenge { grant, pairs };
        Ok(answer)
    }
}
