// What a broker sends.
ghost use Rattle.std.specs.Prelude.{◌≡◌};
ghost use Rattle.zk_model.specs.declared.Expect.TheVariants as expect;
ghost use Rattle.zk_model.specs.Frames.{Allows};
ghost use Rattle.proof_frames.specs.Frames.{frame_value, IsShort};

use proof_frames::Frame;
use zk_model::{Block, Out};

/// With what a broker answers a want.
#[derive(Clone, Copy, Debug, PartialEq, Eq)]
pub enum Reply {
    /// It leases units.
    Block(Block),
    /// No units are left.
    Out(Out),
}

impl Reply {
    ghost use Rattle.broker_links.specs.Replies.{FitsReply, reply_frame};

    /// Its frame.
    pub(crate) fn frame(self) -> Frame
        ensures frame { frame_value result ≡ reply_frame self }
        ensures fits { FitsReply self }
        ensures short { IsShort (reply_frame self) }
    {
        match self {
            Reply::Block(block) => Frame::Block(block),
            Reply::Out(out) => Frame::Out(out),
        }
    }

    /// The reply that a frame in its place is.
    pub(crate) fn of(frame: Frame) -> Self
        requires { Allows expect.Block (frame_value frame) }
        ensures frame { frame_value frame ≡ reply_frame result }
        ensures fits { FitsReply result }
    {
        match frame {
            Frame::Block(block) => Reply::Block(block),
            Frame::Out(out) => Reply::Out(out),
            _ => unreachable!(),
        }
    }
}
