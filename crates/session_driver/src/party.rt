// One end of a session, as the driver sees it.
ghost use Rattle.std.specs.Prelude.{◌≡◌, ◌<◌, ◌≤◌, length, map, All, IfOk, IfErr, OnOk, OnErr, IfSome, IsSome, IsSomeAnd};
ghost use Rattle.std.specs.Thread.{IsSync};
ghost use Rattle.zk_model.specs.Frames.{Allows};
ghost use Rattle.proof_frames.specs.Frames.{frame_value, IsShort};
ghost use Rattle.proof_frames.specs.Readings.{IsShortPlace};

use proof_frames::Frame;
use std::alloc::{AllocError, Global};
use std::thread::Threads;
use zk_model::Expect;

/// Why an end of a session refuses a frame, and the code of the refusal that goes out in a grant's place, if one does.
#[derive(Drop)]
pub struct Refusal<F> {
    pub fault: F,
    pub code: Option<u8>,
}

/// One end of a session: which frame it expects, and what it answers. In its steps it may ask another, a value of type `O`: one who
/// leases units, or claims them.
pub trait Party<O> {
    ghost use Rattle.std.specs.Prelude.{ℕ, List, Option};
    ghost use Rattle.zk_model.specs.Frames as model;
    ghost use Rattle.zk_model.specs.declared.Expect.{Expect};

    /// Why it refuses a frame.
    type Fault: Drop;

    /// What holds of both between the steps.
    ghost holds: { Self → O → Type 0 };

    /// The frame that it expects: none once the session is over.
    ghost expects: { Self → Option Expect };

    /// Where a refusal may go out in its answer's place, the code of the one for missing memory.
    ghost lack_code: { Self → Option ℕ };

    /// What it says first.
    ghost greeting: { Self → List model.Frame };

    /// With what it answers a frame, and where that leads both.
    ghost answers: { Self → O → model.Frame → List model.Frame → Self → O → Type 0 };

    /// Why it refuses a frame, with which code.
    ghost refuses: { Self → O → model.Frame → Self.Fault → Option ℕ → Self → O → Type 0 };

    /// How many frames it takes yet, at most.
    ghost left: { Self → ℕ };

    /// The frame that it expects: none once the session is over.
    fn expects(&self) -> Option<Expect>
        ensures place { result ≡ expects self.now }
        ensures short { IfSome result IsShortPlace };

    /// Where a refusal may go out in its answer's place, the code of the one for missing memory.
    fn lack_code(&self) -> Option<u8>
        ensures { result ≡ lack_code self.now };

    /// What it says first. An end that says nothing is not refused memory for it.
    fn greeting(&self, alloc: Global) -> Result<Vec<Frame>, AllocError>
        ensures frames { IfOk result (λ frames. map frame_value frames.items ≡ greeting self.now) }
        ensures short { IfOk result (λ frames. All IsShort (map frame_value frames.items)) }
        ensures refused { OnErr result (1 ≤ length (greeting self.now)) };

    /// Takes a frame that it expects, and hands back what it answers. It may have threads make of it what takes long.
    fn step<R: Threads + Sync>(
        &mut self,
        rt: &R,
        alloc: Global,
        asked: &mut O,
        frame: Frame,
    ) -> Result<Vec<Frame>, Refusal<Self::Fault>>
        requires shared { IsSync R.row }
        requires expected { IsSomeAnd (expects self.old) (λ place. Allows place (frame_value frame)) }
        requires holds { holds self.old asked.old }
        ensures answered { IfOk result (λ answer. answers self.old asked.old
            (frame_value frame) (map frame_value answer.items) self.new asked.new) }
        ensures short { IfOk result (λ answer. All IsShort (map frame_value answer.items)) }
        ensures refused { IfErr result (λ refusal. refuses self.old asked.old
            (frame_value frame) refusal.fault refusal.code self.new asked.new) }
        ensures coded { IfErr result (λ refusal. IfSome refusal.code (λ _. IsSome (lack_code self.old))) }
        ensures fewer { OnOk result (left self.new < left self.old) }
        ensures holds { OnOk result (holds self.new asked.new) };
}
