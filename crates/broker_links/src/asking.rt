// The node's end of an exchange with a broker.
ghost use Rattle.std.specs.Prelude.{◌≡◌, [], ◌∷◌, None, Some, true, false, IsSome, IsTrue};
ghost use Rattle.zk_model.specs.Frames as model;
ghost use Rattle.zk_model.specs.declared.Side.TheVariants.{Prover};
ghost use Rattle.frame_link.specs.Lines.{snapshot_of};
ghost use Rattle.session_driver.specs.Runs.{IsFresh};
ghost use Rattle.session_driver.specs.declared.drive.Outcome.TheVariants.{Done};
ghost use Rattle.broker_links.specs.Tries.{IsTry, TryLeaves, outcome_told};

use crate::note::{Try, TryOutcome};
use crate::reply::Reply;
use frame_link::Line;
use proof_frames::Frame;
use session_driver::{Outcome, Party, Refusal, run};
use std::alloc::{AllocError, Global};
use std::thread::Threads;
use zk_model::{Expect, Side, Want};
use zk_port::Link;

/// A node's end: its want, and the reply, once it came.
#[derive(Drop)]
pub(crate) struct Asking {
    want: Want,
    came: Option<Reply>,
}

impl Party<()> for Asking {
    ghost use Rattle.std.specs.Prelude.{[], ◌∷◌, None};
    ghost use Rattle.zk_model.specs.Frames as model;
    ghost use Rattle.broker_links.specs.Tries.{asks, try_expects, tries_left};

    type Fault = TryOutcome;

    ghost holds = { λ s asked. Unit {0} };

    ghost expects = { λ s. try_expects s.came };

    ghost lack_code = { λ s. None };

    ghost greeting = { λ s. model.want s.want ∷ [] };

    ghost answers = { λ s asked frame answer t then. asks.answers s.came frame answer t.came };

    ghost refuses = { λ s asked frame fault code t then. asks.refuses s.came frame fault code t.came };

    ghost left = { λ s. tries_left s.came };

    fn expects(&self) -> Option<Expect> {
        match self.came {
            None => Some(Expect::Block),
            Some(_) => None,
        }
    }

    fn lack_code(&self) -> Option<u8> {
        None
    }

    fn greeting(&self, alloc: Global) -> Result<Vec<Frame>, AllocError> {
        let mut frames = Vec::new(alloc);
        frames.push(Frame::Want(self.want))?;
        Ok(frames)
    }

    fn step<R: Threads + Sync>(
        &mut self,
        _rt: &R,
        alloc: Global,
        _asked: &mut (),
        frame: Frame,
    ) -> Result<Vec<Frame>, Refusal<TryOutcome>> {
        self.came = Some(Reply::of(frame));
        Ok(Vec::new(alloc))
    }
}

/// How a try ended.
fn outcome_of(came: Option<Reply>, outcome: Outcome<TryOutcome>) -> TryOutcome
    requires came { outcome ≡ Done → IsSome came }
    ensures { result ≡ outcome_told came outcome }
{
    match outcome {
        Outcome::Done => match came {
            Some(reply) => TryOutcome::from(reply),
            None => unreachable!(),
        },
        Outcome::Refused { fault } => fault,
        Outcome::Cut { fault } => TryOutcome::from(fault),
    }
}

/// The whole exchange.
fn ask<R: Threads + Sync, L: Link>(
    rt: &R,
    alloc: Global,
    want: Want,
    line: &mut Line<L>,
) -> TryOutcome
    requires fresh { IsFresh line.old }
    requires side { line.old.side ≡ Prover }
    ensures left { TryLeaves want (snapshot_of line.old) result (snapshot_of line.new) }
    ensures side { line.new.side ≡ Prover }
    ensures open_still { IsTrue line.new.is_open }
{
    let mut asking = Asking { want, came: None };
    let outcome = run(rt, alloc, &mut asking, &mut (), line);
    outcome_of(asking.came, outcome)
}

/// Asks a broker at the other end of a link for units: sends the want, by one send, and takes the reply. The stream is ended,
/// whatever came of it.
pub fn ask_broker<R: Threads + Sync, L: Link>(rt: &R, alloc: Global, want: Want, link: L) -> Try<L>
    requires { (L.state link).is_open ≡ true }
    ensures { IsTry want (L.state link) result.outcome result.log (L.state result.link) }
{
    let mut line = Line::new(alloc, link, Side::Prover);
    let outcome = ask(rt, alloc, want, &mut line);
    let (link, log) = line.end();
    Try { outcome, log, link }
}
