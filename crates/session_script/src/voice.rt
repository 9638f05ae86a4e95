// What an end of a session hears and says.
ghost use Rattle.std.specs.Prelude.{◌≡◌, ◌≤◌, ◌^◌, List, ◌∷◌, All, length, map, IfOk, IfErr, OnErr, OnOk};
ghost use Rattle.std.specs.Thread.{IsSync};
ghost use Rattle.zk_model.specs.Frames.{Allows};
ghost use Rattle.proof_frames.specs.Frames.{frame_value, IsShort};
ghost use Rattle.proof_frames.specs.Readings.{IsShortPlace};
ghost use Rattle.frame_link.specs.Sides.{peer_of};
ghost use Rattle.session_script.specs.Scripts.{Reached, side_at, stage_of, weight};
ghost use Rattle.zk_model.specs.declared.Expect.{Expect};

use proof_frames::{Frame, Grant};
use std::alloc::{AllocError, Global};
use std::collections::VecDeque;
use std::thread::Threads;
use zk_model::{Expect, Side};

/// What an end of a session hears and says at each place of its script. It may ask another, a value of type `O`: one who leases units, or
/// claims them.
pub trait Voice<O> {
    ghost use Rattle.std.specs.Prelude.{List};
    ghost use Rattle.zk_model.specs.Frames as model;
    ghost use Rattle.zk_model.specs.declared.Side.{Side};
    ghost use Rattle.session_script.specs.Scripts.{Rules};

    /// Why it refuses a frame, or says none.
    type Fault: Drop;

    /// Its side.
    ghost side: { Side };

    /// What it has, which stays.
    ghost Task: { Type 0 };

    /// What it knows of the frames so far, and of the one whom it asks.
    ghost Known: { Type 0 };

    /// What it goes by.
    ghost rules: { Task → Rules Known Self.Fault };

    ghost task: { Self → Task };

    ghost known: { Self → O → Known };

    /// What it says first.
    ghost greeting: { Task → List model.Frame };

    /// Its side.
    fn side(&self) -> Side
        ensures { result ≡ side };

    /// The places that a grant leaves, one that passed.
    fn behind(&self, alloc: Global, grant: Grant) -> Result<VecDeque<Expect>, AllocError>
        requires passed { (old : Known) × (new : Known) × (rules (task self.now)).passes old (model.grant grant) new }
        ensures places { IfOk result (λ places. places.items ≡ (rules (task self.now)).behind grant) }
        ensures short { IfOk result (λ places. All IsShortPlace places.items) }
        ensures few { IfOk result (λ places. weight places.items ≤ 2 ^ 24) };

    /// The code of the refusal that a hello is answered by.
    fn code(&self, fault: &Self::Fault) -> u8
        ensures { result ≡ (rules (task self.now)).code fault.now };

    /// What it says first.
    fn greeting(&self, alloc: Global) -> Result<Vec<Frame>, AllocError>
        ensures frames { IfOk result (λ frames. map frame_value frames.items ≡ greeting (task self.now)) }
        ensures short { IfOk result (λ frames. All IsShort (map frame_value frames.items)) }
        ensures refused { OnErr result (1 ≤ length (greeting (task self.now))) };

    /// Hears a frame of the peer's. It may have threads make of it what takes long.
    fn hear<R: Threads + Sync>(
        &mut self,
        rt: &R,
        alloc: Global,
        asked: &mut O,
        place: Expect,
        frame: Frame,
    ) -> Result<(), Self::Fault>
        requires shared { IsSync R.row }
        requires peers { side_at place ≡ peer_of side }
        requires reached { (rest : List Expect) × Reached (rules (task self.old)) (stage_of (known self.old asked.old) (place ∷ rest)) }
        requires allowed { Allows place (frame_value frame) }
        ensures passes { OnOk result ((rules (task self.old)).passes (known self.old asked.old) (frame_value frame) (known self.new asked.new)) }
        ensures refuses { IfErr result (λ fault. (rules (task self.old)).refuses (known self.old asked.old) (frame_value frame) fault
            (known self.new asked.new)) }
        ensures task { task self.new ≡ task self.old };

    /// Says the frame of its own place.
    fn say<R: Threads + Sync>(
        &mut self,
        rt: &R,
        alloc: Global,
        asked: &mut O,
        place: Expect,
    ) -> Result<Frame, Self::Fault>
        requires shared { IsSync R.row }
        requires own { side_at place ≡ side }
        requires reached { (rest : List Expect) × Reached (rules (task self.old)) (stage_of (known self.old asked.old) (place ∷ rest)) }
        ensures allowed { IfOk result (λ frame. Allows place (frame_value frame)) }
        ensures passes { IfOk result (λ frame. (rules (task self.old)).passes (known self.old asked.old) (frame_value frame)
            (known self.new asked.new)) }
        ensures declines { IfErr result (λ fault. (rules (task self.old)).declines (known self.old asked.old) place fault
            (known self.new asked.new)) }
        ensures task { task self.new ≡ task self.old };
}
