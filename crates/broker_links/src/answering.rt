// The broker's end of an exchange with a node.
ghost use Rattle.std.specs.Prelude.{◌≡◌, ◌∷◌, [], None, Some, Ok, Err, false, true, map, IfOk, IfErr, IsSome, IsSomeAnd, IsTrue, MatchOption};
ghost use Rattle.zk_model.specs.Frames as model;
ghost use Rattle.zk_model.specs.Frames.{Allows};
ghost use Rattle.zk_model.specs.Messages.{FitsWant};
ghost use Rattle.zk_model.specs.declared.Expect.TheVariants as expect;
ghost use Rattle.zk_model.specs.declared.Side.TheVariants.{Verifier};
ghost use Rattle.zk_model.specs.declared.messages.Want.{Want};
ghost use Rattle.frame_link.specs.Lines.{snapshot_of};
ghost use Rattle.proof_frames.specs.Frames.{frame_value};
ghost use Rattle.session_driver.specs.Runs.{IsFresh};
ghost use Rattle.session_driver.specs.declared.drive.Outcome.TheVariants.{Done};
ghost use Rattle.broker_links.specs.Answers.{BrokerLeaves, IsBrokerNote, IsReady, answerer_tells, broker_told};

use crate::answerer::Answerer;
use crate::note::{BrokerNote, BrokerOutcome};
use crate::reply::Reply;
use frame_link::Line;
use proof_frames::Frame;
use session_driver::{Outcome, Party, Refusal, run};
use std::alloc::{AllocError, Global};
use std::thread::Threads;
use zk_model::{Expect, Side, Want};
use zk_port::Link;

/// A broker's end: the want that was answered and its reply, once one was.
#[derive(Drop)]
pub(crate) struct Answering {
    answered: Option<(Want, Reply)>,
}

/// The want that a frame in its place is.
fn want_in(frame: Frame) -> Want
    requires { Allows expect.Want (frame_value frame) }
    ensures frame { frame_value frame ≡ model.want result }
    ensures fits { FitsWant result }
{
    match frame {
        Frame::Want(want) => want,
        _ => unreachable!(),
    }
}

impl<O: Answerer> Party<O> for Answering {
    ghost use Rattle.std.specs.Prelude.{[], None};
    ghost use Rattle.broker_links.specs.Answers.{MayAnswer, answerer_tells, answers_wants, brokering, want_expects, wants_left};

    type Fault = BrokerOutcome<O::Fault>;

    ghost holds = { λ s asked. MayAnswer (answerer_tells O.asked O.answer O.may O.moves) s.answered asked };

    ghost expects = { λ s. want_expects s.answered };

    ghost lack_code = { λ s. None };

    ghost greeting = { λ s. [] };

    ghost answers = { λ s asked frame answer t then.
        (answers_wants (answerer_tells O.asked O.answer O.may O.moves)).answers
        (brokering s.answered asked) frame answer (brokering t.answered then) };

    ghost refuses = { λ s asked frame fault code t then.
        (answers_wants (answerer_tells O.asked O.answer O.may O.moves)).refuses
        (brokering s.answered asked) frame fault code (brokering t.answered then) };

    ghost left = { λ s. wants_left s.answered };

    fn expects(&self) -> Option<Expect> {
        match self.answered {
            None => Some(Expect::Want),
            Some(_) => None,
        }
    }

    fn lack_code(&self) -> Option<u8> {
        None
    }

    fn greeting(&self, alloc: Global) -> Result<Vec<Frame>, AllocError> {
        Ok(Vec::new(alloc))
    }

    fn step<R: Threads + Sync>(
        &mut self,
        _rt: &R,
        alloc: Global,
        asked: &mut O,
        frame: Frame,
    ) -> Result<Vec<Frame>, Refusal<BrokerOutcome<O::Fault>>> {
        let want = want_in(frame);
        let Ok(mut frames) = Vec::with_capacity(alloc, 1) else {
            let fault = BrokerOutcome::NoMemory;
            return Err(Refusal { fault, code: None });
        };
        match asked.reply(want) {
            Ok(reply) => {
                self.answered = Some((want, reply));
                frames.push_reserved(reply.frame());
                Ok(frames)
            }
            Err(fault) => Err(Refusal {
                fault: BrokerOutcome::Refused(fault),
                code: None,
            }),
        }
    }
}

/// How an exchange ended.
fn outcome_of<F>(
    answered: Option<(Want, Reply)>,
    outcome: Outcome<BrokerOutcome<F>>,
) -> BrokerOutcome<F>
    requires answered { outcome ≡ Done → IsSome answered }
    ensures { result ≡ broker_told answered outcome }
{
    match outcome {
        Outcome::Done => match answered {
            Some((want, reply)) => BrokerOutcome::Answered(want, reply),
            None => unreachable!(),
        },
        Outcome::Refused { fault } => fault,
        Outcome::Cut { fault } => BrokerOutcome::from(fault),
    }
}

/// The whole exchange.
fn answer<R: Threads + Sync, O: Answerer, L: Link>(
    rt: &R,
    alloc: Global,
    answerer: &mut O,
    line: &mut Line<L>,
) -> BrokerOutcome<O::Fault>
    requires ready { IsReady (answerer_tells O.asked O.answer O.may O.moves) answerer.old }
    requires fresh { IsFresh line.old }
    requires side { line.old.side ≡ Verifier }
    ensures moved { MatchOption (O.answer answerer.new) (answerer.new ≡ answerer.old)
        (λ answer. IsSomeAnd (O.asked answerer.new)
        (λ want. O.moves answerer.old want answer answerer.new)) }
    ensures left { BrokerLeaves (record { want = O.asked answerer.new; answer = O.answer answerer.new })
        (snapshot_of line.old) result (snapshot_of line.new) }
    ensures side { line.new.side ≡ Verifier }
    ensures open_still { IsTrue line.new.is_open }
{
    let mut answering = Answering { answered: None };
    let outcome = run(rt, alloc, &mut answering, answerer, line);
    outcome_of(answering.answered, outcome)
}

/// Answers the want of a node at the other end of a link: takes the want, has it answered, and sends the reply, by one send. An
/// answerer that refuses has nothing sent. The stream is ended, whatever came of it.
pub fn answer_want<R: Threads + Sync, O: Answerer, L: Link>(
    rt: &R,
    alloc: Global,
    answerer: &mut O,
    link: L,
) -> BrokerNote<L, O::Fault>
    requires open { (L.state link).is_open ≡ true }
    requires once { O.answer answerer.old ≡ None }
    requires may { (want : Want) → FitsWant want → O.may answerer.old want }
    ensures moved { MatchOption (O.answer answerer.new) (answerer.new ≡ answerer.old)
        (λ answer. IsSomeAnd (O.asked answerer.new)
        (λ want. O.moves answerer.old want answer answerer.new)) }
    ensures note { IsBrokerNote (record { want = O.asked answerer.new; answer = O.answer answerer.new })
        (L.state link) result.outcome result.log (L.state result.link) }
{
    let mut line = Line::new(alloc, link, Side::Verifier);
    let outcome = answer(rt, alloc, answerer, &mut line);
    let (link, log) = line.end();
    BrokerNote { outcome, log, link }
}
