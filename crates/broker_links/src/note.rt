// What came of an exchange.
ghost use Rattle.std.specs.Prelude.{◌≡◌};
ghost use Rattle.broker_links.specs.Tries.{reply_outcome, try_line_outcome};
ghost use Rattle.broker_links.specs.Answers.{broker_line_outcome};

use crate::reply::Reply;
use frame_link::{LineFault, Log};
use zk_model::{Block, Out, Want};

/// How a node's try to get units ended.
#[derive(Clone, Copy, Debug, PartialEq, Eq)]
pub enum TryOutcome {
    /// A block came.
    Block(Block),
    /// No units are left.
    Out(Out),
    /// The broker ended when so many bytes had come from it, and more were wanted.
    PeerEnded { at: u64 },
    /// The broker's byte at this place is the first after which no reply can follow.
    BadFrame { place: u64 },
    /// A call of the link failed.
    Link,
    /// Memory was missing.
    NoMemory,
}

impl From<Reply> for TryOutcome {
    ghost from_gives = { λ reply o. o ≡ reply_outcome reply };

    fn from(reply: Reply) -> Self {
        match reply {
            Reply::Block(block) => TryOutcome::Block(block),
            Reply::Out(out) => TryOutcome::Out(out),
        }
    }
}

impl From<LineFault> for TryOutcome {
    ghost from_gives = { λ fault o. o ≡ try_line_outcome fault };

    fn from(fault: LineFault) -> Self {
        match fault {
            LineFault::PeerEnded { at } => TryOutcome::PeerEnded { at },
            LineFault::BadFrame { place } => TryOutcome::BadFrame { place },
            LineFault::Link => TryOutcome::Link,
            LineFault::NoMemory => TryOutcome::NoMemory,
        }
    }
}

/// What came of a try: how it ended, all bytes that passed, and the link.
#[derive(Drop)]
pub struct Try<L> {
    pub outcome: TryOutcome,
    pub log: Log,
    pub link: L,
}

/// How an exchange ended for a broker.
#[derive(Drop)]
pub enum BrokerOutcome<F> {
    /// The want was answered, and the reply sent.
    Answered(Want, Reply),
    /// The node ended when so many bytes had come from it, and more were wanted.
    PeerEnded { at: u64 },
    /// The node's byte at this place is the first after which no want can follow.
    BadFrame { place: u64 },
    /// A call of the link failed. A block that was leased before is lost.
    Link,
    /// Memory was missing. A block that was leased before is lost.
    NoMemory,
    /// The want was not answered.
    Refused(F),
}

impl<F> From<LineFault> for BrokerOutcome<F> {
    ghost from_gives = { λ fault o. o ≡ broker_line_outcome fault };

    fn from(fault: LineFault) -> Self {
        match fault {
            LineFault::PeerEnded { at } => BrokerOutcome::PeerEnded { at },
            LineFault::BadFrame { place } => BrokerOutcome::BadFrame { place },
            LineFault::Link => BrokerOutcome::Link,
            LineFault::NoMemory => BrokerOutcome::NoMemory,
        }
    }
}

/// What came of an exchange at the broker: how it ended, all bytes that passed, and the link.
#[derive(Drop)]
pub struct BrokerNote<L, F> {
    pub outcome: BrokerOutcome<F>,
    pub log: Log,
    pub link: L,
}
