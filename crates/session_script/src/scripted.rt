// One end of a session, which goes by its script.
ghost use Rattle.std.specs.Prelude.{◌≡◌, ◌<◌, ◌≤◌, ◌++◌, None, Some, [], ◌∷◌, map, List, All, IfOk, IfErr, OnOk, IsSomeAnd};
ghost use Rattle.std.specs.Thread.{IsSync};
ghost use Rattle.zk_model.specs.Frames as model;
ghost use Rattle.zk_model.specs.Frames.{Allows};
ghost use Rattle.zk_model.specs.declared.Expect.{Expect};
ghost use Rattle.proof_frames.specs.Frames.{frame_value, IsShort};
ghost use Rattle.proof_frames.specs.Readings.{IsShortPlace};
ghost use Rattle.session_script.specs.declared.fault.EndFault.TheVariants.{NoMemory, OfVoice};
ghost use Rattle.session_script.specs.Scripts.{AnswerFails, AnswersBy, Fits, Passes, Says, TurnsDown, after_in, code_for, left_after, next_of, own_of, Reached, refusal_at, said_by, stage_of, weight, weight_after};

use crate::after::{After, after_of, side_of};
use crate::fault::EndFault;
use crate::voice::Voice;
use proof_frames::Frame;
use session_driver::{Party, Refusal};
use std::alloc::{AllocError, Global};
use std::collections::VecDeque;
use std::thread::Threads;
use zk_model::{Expect, Side};

/// An end of a session: its voice, and the places that are left of its script.
#[derive(Drop)]
pub struct Scripted<V> {
    pub voice: V,
    pub left: VecDeque<Expect>,
    ghost short: { All IsShortPlace left.items },
}

/// The next place.
fn next(left: &VecDeque<Expect>) -> Option<Expect>
    ensures { result ≡ next_of left.now.items }
{
    left.front().copied()
}

/// The next place, where it is one's own.
fn own(left: &VecDeque<Expect>, side: Side) -> Option<Expect>
    ensures { result ≡ own_of side left.now.items }
{
    match next(left) {
        Some(place) if side_of(place) == side => Some(place),
        _ => None,
    }
}

/// The places that a frame leaves.
fn go_on<O, V: Voice<O>>(
    alloc: Global,
    voice: &V,
    left: &mut VecDeque<Expect>,
    after: After,
) -> Result<(), AllocError>
    requires passed { (frame : model.Frame) × (old : V.Known) × (new : V.Known) × (after ≡ after_in frame)
        × (V.rules (V.task voice.now)).passes old frame new }
    requires short { All IsShortPlace left.old.items }
    ensures left { OnOk result (left.new.items ≡ left_after (V.rules (V.task voice.now)).behind left.old.items after) }
    ensures short { All IsShortPlace left.new.items }
    ensures few { OnOk result (weight left.new.items ≤ weight_after after (weight left.old.items)) }
{
    match after {
        After::Behind(grant) => {
            *left = voice.behind(alloc, grant)?;
        }
        After::Nothing => left.clear(),
        After::Rest => {}
    }
    Ok(())
}

/// Takes a frame of the peer's.
fn take<R: Threads + Sync, O, V: Voice<O>>(
    rt: &R,
    alloc: Global,
    voice: &mut V,
    left: &mut VecDeque<Expect>,
    asked: &mut O,
    frame: Frame,
) -> Result<(), EndFault<V::Fault>>
    requires shared { IsSync R.row }
    requires waits { own_of V.side left.old.items ≡ None }
    requires expected { IsSomeAnd (next_of left.old.items) (λ place. Allows place (frame_value frame)) }
    requires reached { Reached (V.rules (V.task voice.old)) (stage_of (V.known voice.old asked.old) left.old.items) }
    requires short { All IsShortPlace left.old.items }
    ensures fits { OnOk result (Fits (V.rules (V.task voice.old)) (stage_of (V.known voice.old asked.old) left.old.items)
        (frame_value frame) (stage_of (V.known voice.new asked.new) left.new.items)) }
    ensures fails { IfErr result (λ fault. TurnsDown V.side (V.rules (V.task voice.old)) (stage_of (V.known voice.old asked.old) left.old.items)
        (frame_value frame) fault (V.known voice.new asked.new)) }
    ensures task { V.task voice.new ≡ V.task voice.old }
    ensures short { All IsShortPlace left.new.items }
    ensures fewer { OnOk result (weight left.new.items < weight left.old.items) }
{
    let Some(place) = left.pop_front() else {
        unreachable!();
    };
    let after = after_of(&frame);
    if let Err(fault) = voice.hear(rt, alloc, asked, place, frame) {
        return Err(EndFault::OfVoice { fault });
    }
    go_on(alloc, voice, left, after)?;
    Ok(())
}

/// Says the frame of its own place.
fn say_one<R: Threads + Sync, O, V: Voice<O>>(
    rt: &R,
    alloc: Global,
    voice: &mut V,
    left: &mut VecDeque<Expect>,
    asked: &mut O,
    place: Expect,
) -> Result<Frame, EndFault<V::Fault>>
    requires shared { IsSync R.row }
    requires own { own_of V.side left.old.items ≡ Some place }
    requires reached { Reached (V.rules (V.task voice.old)) (stage_of (V.known voice.old asked.old) left.old.items) }
    requires short { All IsShortPlace left.old.items }
    ensures fits { IfOk result (λ frame. Fits (V.rules (V.task voice.old)) (stage_of (V.known voice.old asked.old) left.old.items)
        (frame_value frame) (stage_of (V.known voice.new asked.new) left.new.items)) }
    ensures side { IfOk result (λ frame. said_by (frame_value frame) ≡ V.side) }
    ensures frame_short { IfOk result (λ frame. IsShort (frame_value frame)) }
    ensures fails { IfErr result (λ fault. (said : List model.Frame) × Says V.side said × AnswerFails V.side (V.rules (V.task voice.old))
        (stage_of (V.known voice.old asked.old) left.old.items) said fault (V.known voice.new asked.new)) }
    ensures task { V.task voice.new ≡ V.task voice.old }
    ensures short { All IsShortPlace left.new.items }
    ensures fewer { OnOk result (weight left.new.items < weight left.old.items) }
{
    left.pop_front();
    match voice.say(rt, alloc, asked, place) {
        Err(fault) => Err(EndFault::OfVoice { fault }),
        Ok(frame) => {
            go_on(alloc, voice, left, after_of(&frame))?;
            Ok(frame)
        }
    }
}

/// Notes a frame more.
fn keep(frames: &mut Vec<Frame>, frame: Frame) -> Result<(), AllocError>
    ensures { OnOk result (frames.new.items ≡ frames.old.items ++ frame ∷ []) }
{
    frames.push(frame)?;
    Ok(())
}

/// Says the frames of its own places, up to one of the peer's.
fn answer<R: Threads + Sync, O, V: Voice<O>>(
    rt: &R,
    alloc: Global,
    voice: &mut V,
    left: &mut VecDeque<Expect>,
    asked: &mut O,
) -> Result<Vec<Frame>, EndFault<V::Fault>>
    requires shared { IsSync R.row }
    requires reached { Reached (V.rules (V.task voice.old)) (stage_of (V.known voice.old asked.old) left.old.items) }
    requires short { All IsShortPlace left.old.items }
    ensures passes { IfOk result (λ frames. Passes (V.rules (V.task voice.old)) (stage_of (V.known voice.old asked.old) left.old.items)
        (map frame_value frames.items) (stage_of (V.known voice.new asked.new) left.new.items)) }
    ensures own { IfOk result (λ frames. Says V.side (map frame_value frames.items)) }
    ensures waits { OnOk result (own_of V.side left.new.items ≡ None) }
    ensures frames_short { IfOk result (λ frames. All IsShort (map frame_value frames.items)) }
    ensures fails { IfErr result (λ fault. (said : List model.Frame) × Says V.side said × AnswerFails V.side (V.rules (V.task voice.old))
        (stage_of (V.known voice.old asked.old) left.old.items) said fault (V.known voice.new asked.new)) }
    ensures task { V.task voice.new ≡ V.task voice.old }
    ensures short { All IsShortPlace left.new.items }
    ensures few { OnOk result (weight left.new.items ≤ weight left.old.items) }
{
    let side = voice.side();
    let mut frames = Vec::new(alloc);
    'says: while let Some(place) = own(left, side) {
        let frame = say_one(rt, alloc, voice, left, asked, place)?;
        keep(&mut frames, frame)?;
    }
    Ok(frames)
}

/// Takes a frame of the peer's, and says what follows.
fn turn<R: Threads + Sync, O, V: Voice<O>>(
    rt: &R,
    alloc: Global,
    voice: &mut V,
    left: &mut VecDeque<Expect>,
    asked: &mut O,
    frame: Frame,
) -> Result<Vec<Frame>, EndFault<V::Fault>>
    requires shared { IsSync R.row }
    requires waits { own_of V.side left.old.items ≡ None }
    requires expected { IsSomeAnd (next_of left.old.items) (λ place. Allows place (frame_value frame)) }
    requires reached { Reached (V.rules (V.task voice.old)) (stage_of (V.known voice.old asked.old) left.old.items) }
    requires short { All IsShortPlace left.old.items }
    ensures answered { IfOk result (λ answer. AnswersBy V.side (V.rules (V.task voice.old)) (stage_of (V.known voice.old asked.old) left.old.items)
        (frame_value frame) (map frame_value answer.items) (stage_of (V.known voice.new asked.new) left.new.items)) }
    ensures frames_short { IfOk result (λ answer. All IsShort (map frame_value answer.items)) }
    ensures fails { IfErr result (λ fault. TurnsDown V.side (V.rules (V.task voice.old)) (stage_of (V.known voice.old asked.old) left.old.items)
        (frame_value frame) fault (V.known voice.new asked.new)) }
    ensures task { V.task voice.new ≡ V.task voice.old }
    ensures reached { OnOk result (Reached (V.rules (V.task voice.new)) (stage_of (V.known voice.new asked.new) left.new.items)) }
    ensures waits { OnOk result (own_of V.side left.new.items ≡ None) }
    ensures short { All IsShortPlace left.new.items }
    ensures fewer { OnOk result (weight left.new.items < weight left.old.items) }
{
    take(rt, alloc, voice, left, asked, frame)?;
    let frames = answer(rt, alloc, voice, left, asked)?;
    Ok(frames)
}

/// The code of a refusal.
fn code_of<O, V: Voice<O>>(voice: &V, fault: &EndFault<V::Fault>) -> u8
    ensures { result ≡ code_for (V.rules (V.task voice.now)) fault.now }
{
    match fault {
        EndFault::OfVoice { fault } => voice.code(fault),
        EndFault::NoMemory => 4,
    }
}

/// A refusal of this code, where one may go out.
fn refusal(left: &VecDeque<Expect>, code: u8) -> Option<u8>
    ensures { result ≡ refusal_at left.now.items code }
{
    match next(left) {
        Some(Expect::Hello | Expect::ShortHello) => Some(code),
        _ => None,
    }
}

impl<O, V: Voice<O>> Party<O> for Scripted<V> {
    ghost use Rattle.std.specs.Prelude.{◌≡◌, None};
    ghost use Rattle.session_script.specs.Scripts.{AnswersBy, TurnsDown, code_for, next_of, own_of, Reached, refusal_at, stage_of, weight};

    type Fault = EndFault<V::Fault>;

    ghost holds = { λ s asked. (own_of V.side s.left.items ≡ None)
        × Reached (V.rules (V.task s.voice)) (stage_of (V.known s.voice asked) s.left.items) };

    ghost expects = { λ s. next_of s.left.items };

    ghost lack_code = { λ s. refusal_at s.left.items 4 };

    ghost greeting = { λ s. V.greeting (V.task s.voice) };

    ghost answers = { λ s asked frame answer t then.
        AnswersBy V.side (V.rules (V.task s.voice)) (stage_of (V.known s.voice asked) s.left.items) frame answer
        (stage_of (V.known t.voice then) t.left.items)
        × (V.task t.voice ≡ V.task s.voice) };

    ghost refuses = { λ s asked frame fault code t then.
        TurnsDown V.side (V.rules (V.task s.voice)) (stage_of (V.known s.voice asked) s.left.items) frame fault (V.known t.voice then)
        × (code ≡ refusal_at s.left.items (code_for (V.rules (V.task s.voice)) fault))
        × (V.task t.voice ≡ V.task s.voice) };

    ghost left = { λ s. weight s.left.items };

    fn expects(&self) -> Option<Expect> {
        next(&self.left)
    }

    fn lack_code(&self) -> Option<u8> {
        refusal(&self.left, 4)
    }

    fn greeting(&self, alloc: Global) -> Result<Vec<Frame>, AllocError> {
        self.voice.greeting(alloc)
    }

    fn step<R: Threads + Sync>(
        &mut self,
        rt: &R,
        alloc: Global,
        asked: &mut O,
        frame: Frame,
    ) -> Result<Vec<Frame>, Refusal<EndFault<V::Fault>>> {
        let is_hello = refusal(&self.left, 0).is_some();
        match turn(rt, alloc, &mut self.voice, &mut self.left, asked, frame) {
            Ok(answer) => Ok(answer),
            Err(fault) => {
                let code = match is_hello {
                    true => Some(code_of::<O, V>(&self.voice, &fault)),
                    false => None,
                };
                Err(Refusal { fault, code })
            }
        }
    }
}
