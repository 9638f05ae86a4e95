// What a frame leaves of a script.
ghost use Rattle.std.specs.Prelude.{◌≡◌};
ghost use Rattle.proof_frames.specs.Frames.{frame_value};
ghost use Rattle.session_script.specs.Scripts.{after_in, side_at};

use proof_frames::{Frame, Grant};
use zk_model::{Expect, Side};

/// What a frame leaves of a script: the places of a grant, nothing, or those after its own.
#[derive(Clone, Copy, Debug, PartialEq, Eq)]
pub enum After {
    Behind(Grant),
    Nothing,
    Rest,
}

/// What a frame leaves.
pub fn after_of(frame: &Frame) -> After
    ensures { result ≡ after_in (frame_value frame.now) }
{
    match frame {
        Frame::Grant(grant) => After::Behind(*grant),
        Frame::Refuse { .. } => After::Nothing,
        _ => After::Rest,
    }
}

/// Who says the frame of a place.
pub fn side_of(place: Expect) -> Side
    ensures { result ≡ side_at place }
{
    match place {
        Expect::Grant
        | Expect::Reply { .. }
        | Expect::Challenge
        | Expect::Verdict
        | Expect::PolyVerdict
        | Expect::Block => { Side::Verifier }
        _ => Side::Prover,
    }
}
