// The driver of a session.
ghost use Rattle.std.specs.Prelude.{◌≡◌, ◌+◌, ◌*◌, ◌^◌, ◌<◌, ◌≤◌, None, Some, [], length, map, true, All, IfOk, IfErr, OnOk, OnErr, IfSome, IsTrue};
ghost use Rattle.zk_model.specs.Transcript.{refuse_frame};
ghost use Rattle.proof_frames.specs.Frames.{frame_value, IsShort};
ghost use Rattle.proof_frames.specs.Readings.{IsShortPlace};
ghost use Rattle.frame_link.specs.Lines.{Arrives, Fails};
ghost use Rattle.session_driver.specs.Leaving.{IsRun};
ghost use Rattle.session_driver.specs.Runs.{IsFresh, IsUnsent, Runs, SendsAll, TriesRefusal, TurnGoes, TurnStops, moves_of};
ghost use Rattle.session_driver.specs.declared.drive.Outcome.TheVariants.{Cut, Done};
ghost use Rattle.frame_link.specs.declared.fault.LineFault.TheVariants.{NoMemory};

use crate::party::{Party, Refusal};
use frame_link::{Line, LineFault};
use proof_frames::Frame;
use std::alloc::{AllocError, Global};
use std::thread::Threads;
use zk_model::Expect;
use zk_port::Link;

/// How many bytes a refusal has.
const REFUSAL: usize = 6;

/// How a session ended.
#[derive(Drop)]
pub enum Outcome<F> {
    /// Nothing more is expected.
    Done,
    /// The session's end refused a frame.
    Refused { fault: F },
    /// A frame did not pass.
    Cut { fault: LineFault },
}

impl<F> From<LineFault> for Outcome<F> {
    ghost from_gives = { λ fault o. o ≡ Cut fault };

    fn from(fault: LineFault) -> Self {
        Outcome::Cut { fault }
    }
}

/// The frame of a refusal.
fn refusal(code: u8) -> [u8; 6]
    ensures { result ≡ refuse_frame code }
{
    [10, 1, 0, 0, 0, code]
}

/// Keeps room for a refusal, where one may go out.
fn keep_room<L: Link>(line: &mut Line<L>, code: Option<u8>) -> Result<(), AllocError>
    ensures kept { OnOk result (line.new ≡ record line.old { room = line.new.room }) }
    ensures room { OnOk result (IfSome code (λ _. 6 ≤ line.new.room)) }
    ensures refused { OnErr result (line.new ≡ line.old) }
{
    if code.is_some() {
        line.reserve(REFUSAL)?;
    }
    Ok(())
}

/// Sends a refusal, for which there is room, if there is a code; whether that fails changes nothing.
fn refuse<L: Link>(alloc: Global, line: &mut Line<L>, code: Option<u8>)
    requires open { IsTrue line.old.is_open }
    requires room { IfSome code (λ _. 6 ≤ line.old.room) }
    ensures { TriesRefusal code line.old line.new }
{
    if let Some(code) = code {
        let _ = line.send_prepared(alloc, &refusal(code));
    }
}

/// Takes the frame that is expected, once there is room for a refusal, where one may go out.
fn take<L: Link>(
    alloc: Global,
    line: &mut Line<L>,
    place: Expect,
    lack: Option<u8>,
) -> Result<Frame, LineFault>
    requires open { IsTrue line.old.is_open }
    requires idle { line.old.reading.expected ≡ None }
    requires short { IsShortPlace place }
    requires fits { line.old.reading.received + 2 ^ 29 ≤ 2 ^ 64 }
    ensures room { OnOk result (IfSome lack (λ _. 6 ≤ line.new.room)) }
    ensures arrives { IfOk result (λ frame.
        Arrives place (frame_value frame) (record line.old { room = line.new.room }) line.new) }
    ensures fails { IfErr result (λ fault.
        Fails place fault (record line.old { room = line.new.room }) line.new) }
{
    keep_room(line, lack)?;
    let frame = line.take(alloc, place)?;
    Ok(frame)
}

/// Sends frames by one send, if there are any. Where memory is missing for that, a refusal goes out in their place, if there is a
/// code.
fn send_all<L: Link>(
    alloc: Global,
    line: &mut Line<L>,
    frames: &[Frame],
    lack: Option<u8>,
) -> Result<(), LineFault>
    requires open { IsTrue line.old.is_open }
    requires short { All IsShort (map frame_value frames.now) }
    requires room { IfSome lack (λ _. 6 ≤ line.old.room) }
    ensures sends { OnOk result (SendsAll (map frame_value frames.now) line.old line.new) }
    ensures fails { IfErr result (λ fault.
        IsUnsent lack (map frame_value frames.now) fault line.old line.new) }
{
    if frames.is_empty() {
        return Ok(());
    }
    let Ok(bytes) = line.prepare(alloc, frames) else {
        refuse(alloc, line, lack);
        return Err(LineFault::NoMemory);
    };
    line.send_prepared(alloc, &bytes)?;
    Ok(())
}

/// Takes the frame that is expected, and sends what is answered, or a refusal.
fn turn<R: Threads + Sync, O, P: Party<O>, L: Link>(
    rt: &R,
    alloc: Global,
    party: &mut P,
    asked: &mut O,
    line: &mut Line<L>,
    place: Expect,
) -> Result<(), Outcome<P::Fault>>
    requires open { IsTrue line.old.is_open }
    requires idle { line.old.reading.expected ≡ None }
    requires short { IsShortPlace place }
    requires fits { line.old.reading.received + 2 ^ 29 ≤ 2 ^ 64 }
    requires expected { P.expects party.old ≡ Some place }
    requires holds { P.holds party.old asked.old }
    ensures holds { OnOk result (P.holds party.new asked.new) }
    ensures goes { OnOk result (TurnGoes (moves_of P.expects P.lack_code P.answers P.refuses)
        (party.old, asked.old) (party.new, asked.new) line.old line.new) }
    ensures fewer { OnOk result (P.left party.new < P.left party.old) }
    ensures stops { IfErr result (λ outcome. TurnStops (moves_of P.expects P.lack_code P.answers P.refuses)
        (party.old, asked.old) (party.new, asked.new) outcome line.old line.new) }
{
    let lack = party.lack_code();
    let frame = take(alloc, line, place, lack)?;
    match party.step(rt, alloc, asked, frame) {
        Ok(answer) => {
            send_all(alloc, line, &answer, lack)?;
            Ok(())
        }
        Err(Refusal { fault, code }) => {
            refuse(alloc, line, code);
            Err(Outcome::Refused { fault })
        }
    }
}

/// Sends the greeting.
fn greet<O, P: Party<O>, L: Link>(
    alloc: Global,
    party: &P,
    line: &mut Line<L>,
) -> Result<(), LineFault>
    requires open { IsTrue line.old.is_open }
    ensures sends { OnOk result (SendsAll (P.greeting party.now) line.old line.new) }
    ensures fails { IfErr result (λ fault. IsUnsent None (P.greeting party.now) fault line.old line.new) }
{
    let greeting = party.greeting(alloc)?;
    send_all(alloc, line, &greeting, None)
}

/// Greets, and takes and answers frames until nothing more is expected.
fn turns<R: Threads + Sync, O, P: Party<O>, L: Link>(
    rt: &R,
    alloc: Global,
    party: &mut P,
    asked: &mut O,
    line: &mut Line<L>,
) -> Result<(), Outcome<P::Fault>>
    requires fresh { IsFresh line.old }
    requires holds { P.holds party.old asked.old }
    requires few { P.left party.old ≤ 2 ^ 32 }
    ensures done { OnOk result (IsRun (moves_of P.expects P.lack_code P.answers P.refuses)
        (P.greeting party.old) (party.old, asked.old) (party.new, asked.new) Done line.old line.new) }
    ensures stops { IfErr result (λ outcome. IsRun (moves_of P.expects P.lack_code P.answers P.refuses)
        (P.greeting party.old) (party.old, asked.old) (party.new, asked.new) outcome line.old line.new) }
{
    greet::<O, P, L>(alloc, party, line)?;
    'turns: while let Some(place) = party.expects() {
        turn(rt, alloc, party, asked, line, place)?;
    }
    Ok(())
}

/// Leads a session's end over a line, from its greeting on, whatever comes, until nothing more is expected or something stops it.
/// Each answer goes out by one send. Where the end says that its place may be answered by a refusal, room for one is kept before
/// the frame is taken; it goes out where the frame is refused, or where memory is missing for the answer.
pub fn run<R: Threads + Sync, O, P: Party<O>, L: Link>(
    rt: &R,
    alloc: Global,
    party: &mut P,
    asked: &mut O,
    line: &mut Line<L>,
) -> Outcome<P::Fault>
    requires fresh { IsFresh line.old }
    requires holds { P.holds party.old asked.old }
    requires few { P.left party.old ≤ 2 ^ 32 }
    ensures run { IsRun (moves_of P.expects P.lack_code P.answers P.refuses) (P.greeting party.old)
        (party.old, asked.old) (party.new, asked.new) result line.old line.new }
    ensures side { line.new.side ≡ line.old.side }
    ensures open_still { IsTrue line.new.is_open }
{
    match turns(rt, alloc, party, asked, line) {
        Ok(()) => Outcome::Done,
        Err(outcome) => outcome,
    }
}
