// Which frames of a log are given.
ghost use Rattle.std.specs.Prelude.{◌≡◌, ◌+◌, ◌*◌, ◌<◌, ◌≤◌, ◌↔◌, [], ℕ, length, map, All, slice_index_or, vec_len, IfNone, IfOk, IfSome, IsSomeAnd, IsFalse, IsTrue};
ghost use Rattle.zk_model.specs.Files.{IsVerifierFile, correlations_per_unit};
ghost use Rattle.zk_model.specs.Frames as model;
ghost use Rattle.zk_model.specs.Frames.{Allows, AreAsks};
ghost use Rattle.zk_model.specs.Correlations.{span_keys};
ghost use Rattle.zk_model.specs.View.{span_of, verdict_code, verdict_number};
ghost use Rattle.zk_model.specs.ServedVerifier.{round_replies};
ghost use Rattle.zk_model.specs.declared.Kind.TheVariants.{Extended};
ghost use Rattle.zk_model.specs.Program.{section_count};
ghost use Rattle.zk_model.specs.Statement.{IsStatement};
ghost use Rattle.zk_model.specs.Transcript.{IsGrant};
ghost use Rattle.zk_model.specs.Audit.{hello_place};
ghost use Rattle.zk_model.specs.declared.Expect.TheVariants as expect;
ghost use Rattle.proof_frames.specs.Frames.{frame_value};
ghost use Rattle.proof_frames.specs.Readings.{IsShortPlace};
ghost use Rattle.session_core.specs.Extending.{replies_in, asks_of, replies_of};
ghost use Rattle.session_core.specs.Jobs.{verifier_of};
ghost use Rattle.session_core.specs.Judgements.{Finds};
ghost use Rattle.proof_audit.specs.declared.session.Stage.TheVariants as at;
ghost use Rattle.proof_audit.specs.Stages.{IsDescribed, expected_at, StageTakes, Wrongs};

use crate::session::{Session, Stage};
use dealer_files::VerifierFile;
use proof_frames::{Expect, Frame, Grant};
use session_core::{
    Judgement, OneThread, Replied, Statement, Verdict, VerifierJob, difference, replies_in,
    reply_units,
};
use std::alloc::{AllocError, Global};
use std::marker::Model;
use std::mem;
use tree_messages::TreeReply;
use vole_extend::columns_of;
use zk_model::{BlockPair, Kind, MAX_SECTION_LENGTH, Params};

/// Judges the frames of a session about a statement, by the verifier's file.
#[derive(Drop)]
pub(crate) struct Judge<'a> {
    statement: &'a Statement<'a>,
    file: &'a VerifierFile,
}

impl<'a> Model for Judge<'a> {
    ghost use Rattle.zk_model.specs.ServedVerifier as served;

    ghost Value = { served.VerifierTask };

    ghost view = { λ j. record { file = j.file.now; statement = j.statement.now } };
}

/// Whether two lists of masked messages are one.
fn same_messages(some: &[BlockPair], others: &[BlockPair]) -> bool
    ensures { IsTrue result ↔ some.now ≡ others.now }
{
    if some.len() != others.len() {
        return false;
    }
    for (level, both) in some.iter().enumerate() {
        if *both != others[level] {
            return false;
        }
    }
    true
}

/// Whether two lists of replies are one.
pub fn same_replies(some: &[TreeReply], others: &[TreeReply]) -> bool
    ensures { IsTrue result ↔ some.now ≡ others.now }
{
    if some.len() != others.len() {
        return false;
    }
    for (i, reply) in some.iter().enumerate() {
        let other = &others[i];
        if reply.leaf_offset != other.leaf_offset {
            return false;
        }
        if !same_messages(&reply.messages, &other.messages) {
            return false;
        }
    }
    true
}

/// Whether a code and a number say a verdict.
fn says(code: u8, number: u32, verdict: Verdict) -> bool
    ensures yes { IsTrue result → (code ≡ verdict_code verdict) × (number ≡ verdict_number verdict) }
    ensures no { code ≡ verdict_code verdict → number ≡ verdict_number verdict → IsTrue result }
{
    match verdict {
        Verdict::Accepted => code == 0 && number == 0,
        Verdict::RejectedSum { section } => code == 1 && number == section,
        Verdict::RejectedOpening { output } => code == 2 && number == output,
    }
}

/// Whether a frame has the replies that are due for a unit of the grant.
fn is_due(session: &Session, done: u32, frame: &Frame) -> bool
    requires { done < vec_len session.now.replied }
    ensures { IsTrue result ↔ replies_in (frame_value frame.now)
        ≡ slice_index_or (replies_of session.now.replied.items) done [] }
{
    let due = replies_in(&session.replied[done as usize]);
    same_replies(replies_in(frame), due)
}

impl<'a> Judge<'a> {
    /// A judge of sessions about this statement.
    pub fn new(statement: &'a Statement<'a>, file: &'a VerifierFile) -> Self
        ensures { result ≡ record { file = file.now; statement = statement.now } }
    {
        Judge { statement, file }
    }

    /// The place of the next frame; none behind a verdict or a refusal.
    pub fn expects(&self, stage: &Stage) -> Option<Expect>
        requires { IsDescribed self.now stage.now }
        ensures place { result ≡ expected_at self.now stage.now }
        ensures short { IfSome result IsShortPlace }
    {
        let program = self.statement.program();
        let _products = program.products();
        let Params { height, trees, .. } = self.file.params();
        let height = usize::from(height);
        let trees = trees as usize;
        match stage {
            Stage::Hello => Some(self.statement.hello_place()),
            Stage::Grant => Some(Expect::Grant),
            Stage::Asks(session) => Some(Expect::Ask {
                height,
                trees,
                units_left: session.grant.count as usize - session.asked.len(),
            }),
            Stage::Replies { session, done } => Some(Expect::Reply {
                height,
                trees,
                units_left: (session.grant.count - *done) as usize,
            }),
            Stage::Corrections(_) => Some(Expect::Corrections {
                count: program.givens(),
            }),
            Stage::Challenge(_) => Some(Expect::Challenge),
            Stage::Sums(session) => {
                let sections = program.sections(u64::from(session.grant.section)) as usize;
                Some(Expect::Sums { sections })
            }
            Stage::Openings(_) => Some(Expect::Openings {
                count: program.opened().len(),
            }),
            Stage::Verdict(_) => Some(Expect::Verdict),
            Stage::Accepted(_) | Stage::Declined => None,
        }
    }

    /// Takes a frame that the place of a stage allows: the next stage, or none where the frame is not given.
    ///
    /// # Errors
    ///
    /// Only where memory runs out.
    pub fn take(
        &self,
        alloc: Global,
        stage: Stage,
        frame: Frame,
    ) -> Result<Option<Stage>, AllocError>
        requires described { IsDescribed self.now stage }
        requires expected { IsSomeAnd (expected_at self.now stage)
            (λ place. Allows place (frame_value frame)) }
        ensures takes { IfOk result (λ taken. IfSome taken (StageTakes self.now stage (frame_value frame))) }
        ensures wrongs { IfOk result (λ taken. IfNone taken (Wrongs self.now stage (frame_value frame))) }
    {
        match stage {
            Stage::Hello => Ok(self.take_hello(frame)),
            Stage::Grant => Ok(self.take_grant(alloc, frame)),
            Stage::Asks(session) => {
                let next = self.take_asks(alloc, session, frame)?;
                Ok(Some(next))
            }
            Stage::Replies { session, done } => Ok(self.take_replies(session, done, frame)),
            Stage::Corrections(session) => Ok(Some(self.take_corrections(session, frame))),
            Stage::Challenge(session) => Ok(self.take_challenge(session, frame)),
            Stage::Sums(session) => Ok(Some(self.take_sums(session, frame))),
            Stage::Openings(session) => Ok(Some(self.take_openings(session, frame))),
            Stage::Verdict(session) => self.take_verdict(alloc, session, frame),
            Stage::Accepted(_) | Stage::Declined => unreachable!(),
        }
    }

    /// Goes on from a stage by a frame that its place allows; not where the frame is not given.
    ///
    /// # Errors
    ///
    /// Only where memory runs out.
    pub fn advance(
        &self,
        alloc: Global,
        stage: &mut Stage,
        frame: Frame,
    ) -> Result<bool, AllocError>
        requires described { IsDescribed self.now stage.old }
        requires expected { IsSomeAnd (expected_at self.now stage.old)
            (λ place. Allows place (frame_value frame)) }
        ensures goes_on { IfOk result (λ goes_on. IsTrue goes_on
            → StageTakes self.now stage.old (frame_value frame) stage.new) }
        ensures stops { IfOk result (λ goes_on. IsFalse goes_on
            → Wrongs self.now stage.old (frame_value frame)) }
    {
        match self.take(alloc, mem::replace(stage, Stage::Declined), frame)? {
            Some(next) => {
                *stage = next;
                Ok(true)
            }
            None => Ok(false),
        }
    }

    /// A hello is given where it is one for the file and the statement.
    fn take_hello(&self, frame: Frame) -> Option<Stage>
        requires expected { Allows (hello_place self.now.statement.kind) (frame_value frame) }
        ensures takes { IfSome result (StageTakes self.now at.Hello (frame_value frame)) }
        ensures wrongs { IfNone result (Wrongs self.now at.Hello (frame_value frame)) }
    {
        let Frame::Hello(hello) = frame else {
            unreachable!();
        };
        match difference(self.file.id(), self.statement, &hello) {
            None => Some(Stage::Grant),
            Some(_) => None,
        }
    }

    /// Whether a grant is one of a session about the statement, of units in the file.
    fn grants(&self, grant: Grant) -> bool
        ensures yes { IsTrue result → IsGrant self.now.file.params self.now.statement.program grant }
        ensures no { IsGrant self.now.file.params self.now.statement.program grant → IsTrue result }
    {
        if grant.section < 1 || grant.section > MAX_SECTION_LENGTH {
            return false;
        }
        match VerifierJob::fit(self.statement, self.file, grant.section) {
            Err(_) => false,
            Ok(job) => {
                let total = self.file.total();
                let count = u64::from(grant.count);
                grant.count == job.units() && grant.start <= total && count <= total - grant.start
            }
        }
    }

    /// A grant is given where it fits. A refusal ends the session.
    fn take_grant(&self, alloc: Global, frame: Frame) -> Option<Stage>
        requires expected { Allows expect.Grant (frame_value frame) }
        ensures takes { IfSome result (StageTakes self.now at.Grant (frame_value frame)) }
        ensures wrongs { IfNone result (Wrongs self.now at.Grant (frame_value frame)) }
    {
        match frame {
            Frame::Grant(grant) => {
                if !self.grants(grant) {
                    return None;
                }
                let session = Session::new(alloc, grant);
                match self.file.params().kind {
                    Kind::Direct => Some(Stage::Corrections(session)),
                    Kind::Extended => Some(Stage::Asks(session)),
                }
            }
            Frame::Refuse { .. } => Some(Stage::Declined),
            _ => unreachable!(),
        }
    }

    /// The asks for a unit may be anything; after those for the last the replies are due.
    fn take_asks(&self, alloc: Global, session: Session, frame: Frame) -> Result<Stage, AllocError>
        requires described { IsDescribed self.now (at.Asks session) }
        requires expected { (left : ℕ) × Allows (expect.Ask self.now.file.params.height
            self.now.file.params.trees left) (frame_value frame) }
        ensures { IfOk result (StageTakes self.now (at.Asks session) (frame_value frame)) }
    {
        let session = session.with_ask(frame)?;
        if session.asked.len() < session.grant.count as usize {
            return Ok(Stage::Asks(session));
        }
        let replied = self.reply(alloc, session.grant, &session.asked)?;
        Ok(Stage::Replies {
            session: session.with_replies(replied),
            done: 0,
        })
    }

    /// What the verifier replies to the asks for all units of a grant, and its keys.
    fn reply(&self, alloc: Global, grant: Grant, asked: &[Frame]) -> Result<Replied, AllocError>
        requires extended { self.now.file.params.kind ≡ Extended }
        requires within { grant.start + grant.count ≤ self.now.file.params.total }
        requires count { length asked.now ≡ grant.count }
        requires asks { All (AreAsks self.now.file.params.height self.now.file.params.trees)
            (asks_of asked.now) }
        ensures replies { IfOk result (λ r. map frame_value r.replies.items
            ≡ map model.replies (round_replies self.now.file grant (asks_of asked.now))) }
        ensures keys { IfOk result (λ r. r.keys.items ≡ span_keys self.now.file (span_of grant)) }
        ensures count { IfOk result (λ r. length r.keys.items
            ≡ grant.count * correlations_per_unit self.now.file.params) }
        ensures file { IsVerifierFile self.now.file }
    {
        let params = self.file.params();
        let columns = columns_of(alloc, &params, &self.file.code_seed())?;
        let replied = reply_units(alloc, self.file, &columns, grant, asked)?;
        Ok(replied)
    }

    /// Replies are given where they are the verifier's to the asks for the same unit.
    fn take_replies(&self, session: Session, done: u32, frame: Frame) -> Option<Stage>
        requires described { IsDescribed self.now (at.Replies session done) }
        requires expected { (left : ℕ) × Allows (expect.Reply self.now.file.params.height
            self.now.file.params.trees left) (frame_value frame) }
        ensures takes { IfSome result (StageTakes self.now (at.Replies session done) (frame_value frame)) }
        ensures wrongs { IfNone result (Wrongs self.now (at.Replies session done) (frame_value frame)) }
    {
        if !is_due(&session, done, &frame) {
            return None;
        }
        if done + 1 == session.grant.count {
            return Some(Stage::Corrections(session));
        }
        Some(Stage::Replies {
            session,
            done: done + 1,
        })
    }

    /// Corrections may be any.
    fn take_corrections(&self, session: Session, frame: Frame) -> Stage
        requires described { IsDescribed self.now (at.Corrections session) }
        requires expected { Allows (expect.Corrections self.now.statement.program.givens)
            (frame_value frame) }
        ensures { StageTakes self.now (at.Corrections session) (frame_value frame) result }
    {
        let Frame::Corrections(corrections) = frame else {
            unreachable!();
        };
        let mut session = session;
        session.corrections = corrections;
        Stage::Challenge(session)
    }

    /// A challenge is given where it is the coin of the grant's first unit.
    fn take_challenge(&self, session: Session, frame: Frame) -> Option<Stage>
        requires described { IsDescribed self.now (at.Challenge session) }
        requires expected { Allows expect.Challenge (frame_value frame) }
        ensures takes { IfSome result (StageTakes self.now (at.Challenge session) (frame_value frame)) }
        ensures wrongs { IfNone result (Wrongs self.now (at.Challenge session) (frame_value frame)) }
    {
        let Frame::Challenge(challenge) = frame else {
            unreachable!();
        };
        let _total = self.file.total();
        if challenge != self.file.challenge(session.grant.start) {
            return None;
        }
        let mut session = session;
        session.challenge = challenge;
        Some(Stage::Sums(session))
    }

    /// Sums may be any.
    fn take_sums(&self, session: Session, frame: Frame) -> Stage
        requires described { IsDescribed self.now (at.Sums session) }
        requires expected { Allows (expect.Sums (section_count self.now.statement.program
            session.grant.section_length)) (frame_value frame) }
        ensures { StageTakes self.now (at.Sums session) (frame_value frame) result }
    {
        let Frame::Sums(sums) = frame else {
            unreachable!();
        };
        let mut session = session;
        session.sums = sums;
        Stage::Openings(session)
    }

    /// Openings may be any.
    fn take_openings(&self, session: Session, frame: Frame) -> Stage
        requires described { IsDescribed self.now (at.Openings session) }
        requires expected { Allows (expect.Openings (length self.now.statement.program.opened))
            (frame_value frame) }
        ensures { StageTakes self.now (at.Openings session) (frame_value frame) result }
    {
        let Frame::Openings(openings) = frame else {
            unreachable!();
        };
        let mut session = session;
        session.openings = openings;
        Stage::Verdict(session)
    }

    /// What the checks of a session say.
    fn judgement(&self, alloc: Global, session: &Session) -> Result<Judgement, AllocError>
        requires { IsDescribed self.now (at.Verdict session.now) }
        ensures finds { IfOk result (Finds (verifier_of self.now.statement self.now.file
            session.now.grant.section_length) session.now.grant.start session.now.corrections.items
            session.now.sums.items session.now.openings.items) }
        ensures stated { IsStatement self.now.statement }
    {
        let _program = self.statement.program();
        let Grant { start, section, .. } = session.grant;
        let job = VerifierJob::new(self.statement, self.file, section);
        let keys = match self.file.params().kind {
            Kind::Direct => job.dealt_keys(start),
            Kind::Extended => &session.keys,
        };
        let judgement = job.judge(
            &OneThread,
            alloc,
            start,
            keys,
            &session.corrections,
            &session.sums,
            &session.openings,
        )?;
        Ok(judgement)
    }

    /// A verdict is given where it is that of the checks. One that rejects ends the session.
    fn take_verdict(
        &self,
        alloc: Global,
        session: Session,
        frame: Frame,
    ) -> Result<Option<Stage>, AllocError>
        requires described { IsDescribed self.now (at.Verdict session) }
        requires expected { Allows expect.Verdict (frame_value frame) }
        ensures takes { IfOk result (λ taken.
            IfSome taken (StageTakes self.now (at.Verdict session) (frame_value frame))) }
        ensures wrongs { IfOk result (λ taken.
            IfNone taken (Wrongs self.now (at.Verdict session) (frame_value frame))) }
    {
        let Frame::Verdict { code, number } = frame else {
            unreachable!();
        };
        let judgement = self.judgement(alloc, &session)?;
        if !says(code, number, judgement.verdict()) {
            return Ok(None);
        }
        if code == 0 {
            return Ok(Some(Stage::Accepted(session)));
        }
        Ok(Some(Stage::Declined))
    }
}
