// How far a log has been read, and what has been read of its session.
ghost use Rattle.std.specs.Prelude.{◌≡◌, IfOk};
ghost use Rattle.proof_audit.specs.Stages.{IsNew, HasAskMore};

use mersenne_field::Fe;
use proof_frames::{Frame, Grant};
use session_core::Replied;
use std::alloc::{AllocError, Global};

/// What has been read of a session from its grant on; a list that has not come yet is empty.
#[derive(Drop)]
pub(crate) struct Session {
    pub(crate) grant: Grant,
    /// The asks for each unit, none in kind direct.
    pub(crate) asked: Vec<Frame>,
    /// What the verifier replies to them.
    pub(crate) replied: Vec<Frame>,
    /// The verifier's keys that the round makes, none in kind direct, where they are dealt.
    pub(crate) keys: Vec<Fe>,
    pub(crate) corrections: Vec<Fe>,
    pub(crate) challenge: Fe,
    pub(crate) sums: Vec<(Fe, Fe)>,
    pub(crate) openings: Vec<Fe>,
}

/// Which frame is next, with what has been read. In a round so many replies have been read.
#[derive(Drop)]
pub(crate) enum Stage {
    Hello,
    Grant,
    Asks(Session),
    Replies { session: Session, done: u32 },
    Corrections(Session),
    Challenge(Session),
    Sums(Session),
    Openings(Session),
    Verdict(Session),
    /// The session was accepted.
    Accepted(Session),
    /// It was refused or rejected.
    Declined,
}

impl Session {
    /// A session of which nothing has been read behind its grant.
    pub(crate) fn new(alloc: Global, grant: Grant) -> Self
        ensures { IsNew grant result }
    {
        Session {
            grant,
            asked: Vec::new(alloc),
            replied: Vec::new(alloc),
            keys: Vec::new(alloc),
            corrections: Vec::new(alloc),
            challenge: Fe::ZERO,
            sums: Vec::new(alloc),
            openings: Vec::new(alloc),
        }
    }

    /// With the asks for one unit more.
    pub(crate) fn with_ask(self, frame: Frame) -> Result<Self, AllocError>
        ensures { IfOk result (λ next. HasAskMore self frame next) }
    {
        let mut session = self;
        session.asked.push(frame)?;
        Ok(session)
    }

    /// With the replies to its asks, and the keys that its round makes.
    pub(crate) fn with_replies(self, replied: Replied) -> Self
        ensures { result ≡ record self { replied = replied.replies; keys = replied.keys } }
    {
        let mut session = self;
        session.replied = replied.replies;
        session.keys = replied.keys;
        session
    }
}
