// The frames of rounds.
ghost use Rattle.std.specs.Prelude.{◌≡◌, map, IfOk};
ghost use Rattle.zk_model.specs.Frames as model;
ghost use Rattle.proof_frames.specs.Frames.{frame_value};
ghost use Rattle.round_fan.specs.Fans.{lists_of};

use proof_frames::Frame;
use std::alloc::{AllocError, Global};
use tree_messages::{TreeAsk, TreeReply};

/// A frame for each unit's asks, in order.
pub fn ask_frames(alloc: Global, asks: Vec<Vec<TreeAsk>>) -> Result<Vec<Frame>, AllocError>
    ensures { IfOk result (λ frames. map frame_value frames.items
        ≡ map model.asks (lists_of asks.items)) }
{
    let mut frames = Vec::with_capacity(alloc, asks.len())?;
    for trees in asks {
        frames.push(Frame::ExtendAsk(trees))?;
    }
    Ok(frames)
}

/// A frame for each unit's replies, in order.
pub fn reply_frames(alloc: Global, replies: Vec<Vec<TreeReply>>) -> Result<Vec<Frame>, AllocError>
    ensures { IfOk result (λ frames. map frame_value frames.items
        ≡ map model.replies (lists_of replies.items)) }
{
    let mut frames = Vec::with_capacity(alloc, replies.len())?;
    for trees in replies {
        frames.push(Frame::ExtendReply(trees))?;
    }
    Ok(frames)
}
