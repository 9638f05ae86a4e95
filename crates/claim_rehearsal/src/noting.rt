// Frames of a session, noted in its log as they are spelled.
ghost use Rattle.std.specs.Prelude.{◌≡◌, ◌++◌, map, All, IfOk, OnOk};
ghost use Rattle.zk_model.specs.Frames.{frame_spelling};
ghost use Rattle.zk_model.specs.Transcript.{bytes_from};
ghost use Rattle.proof_frames.specs.Frames.{frame_value, IsShort};
ghost use Rattle.session_script.specs.Scripts.{log_of, said_by};

use frame_link::Log;
use proof_frames::{Frame, encode};
use std::alloc::{AllocError, Global};
use zk_model::Side;

/// Who says a frame.
fn side_of(frame: &Frame) -> Side
    ensures { result ≡ said_by (frame_value frame.now) }
{
    match frame {
        Frame::Hello(_) | Frame::ExtendAsk(_) | Frame::Corrections(_) | Frame::Want(_) => {
            Side::Prover
        }
        Frame::Sums(_) | Frame::Openings(_) | Frame::PolySums(_) => Side::Prover,
        Frame::Grant(_) | Frame::ExtendReply(_) | Frame::Challenge(_) => Side::Verifier,
        Frame::Verdict { .. } | Frame::Refuse { .. } => Side::Verifier,
        Frame::Block(_) | Frame::Out(_) => Side::Verifier,
    }
}

/// Notes a frame more.
fn note_frame(alloc: Global, log: &mut Log, frame: &Frame) -> Result<(), AllocError>
    requires { IsShort (frame_value frame.now) }
    ensures { OnOk result (log.new ≡ log.old
        ++ bytes_from (said_by (frame_value frame.now)) (frame_spelling (frame_value frame.now))) }
{
    let bytes = encode(alloc, frame)?;
    log.push(side_of(frame), &bytes)?;
    Ok(())
}

/// The log of frames, each from the side that says it.
pub(crate) fn note(alloc: Global, frames: &[Frame]) -> Result<Log, AllocError>
    requires { All IsShort (map frame_value frames.now) }
    ensures { IfOk result (λ log. log ≡ log_of (map frame_value frames.now)) }
{
    let mut log = Log::new(alloc);
    for frame in frames {
        note_frame(alloc, &mut log, frame)?;
    }
    Ok(log)
}
