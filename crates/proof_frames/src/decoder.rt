// Frames, read piece by piece.
ghost use Rattle.std.specs.Prelude.{◌≡◌, ◌⊎◌, ◌+◌, ◌^◌, ◌<◌, ◌≤◌, length, [], Some, None, IfOk, IfErr, IfSome, IfNone, OnOk, OnErr};

use crate::frame::Frame;
use crate::held::Held;
use crate::rooms::Rooms;
use crate::whole::whole_frame;
use std::alloc::{AllocError, Global};
use std::marker::Model;
use thiserror::Error;
use zk_model::{Expect, FrameKind};

/// A byte after which no frame that is expected can follow: its place among all bytes that were received, from 0, and the
/// kind of frame that is expected there.
#[derive(Clone, Copy, Debug, PartialEq, Eq, Error)]
#[error("no frame that is expected has the byte at {place}")]
pub struct BadFrame {
    pub place: u64,
    pub kind: FrameKind,
}

/// Reads frames from bytes that come in pieces of any length: what is expected next is named, then pieces are fed until the
/// frame is whole. Contracts see of it a `Reading`.
#[derive(Debug, Drop)]
pub struct Decoder {
    alloc: Global,
    received: u64,
    expected: Option<Expect>,
    bad: Option<BadFrame>,
    taken: usize,
    held: Held,
    rooms: Rooms,
}

impl Model for Decoder {
    ghost use Rattle.std.specs.Prelude.{◌≡◌, [], take};
    ghost use Rattle.proof_frames.specs.Readings as readings;
    ghost use Rattle.proof_frames.specs.Holding.{bytes_of, IsSound};
    ghost use Rattle.proof_frames.specs.Rooms.{HasRoomsFor};

    ghost Value = { readings.Reading };

    ghost view = { λ d. record {
      received = d.received;
      expected = d.expected;
      taken = take d.taken (bytes_of d.held);
      bad = d.bad;
    } };

    ghost invariant = { λ d. IsSound d.expected d.received d.bad d.taken d.held
        × HasRoomsFor d.expected d.rooms };
}

impl Decoder {
    ghost use Rattle.proof_frames.specs.Frames.{frame_value};
    ghost use Rattle.proof_frames.specs.Readings.{IsShortPlace, IsReading, wanted, Takes, Refuses, Gives, IsNotWhole, IsIdle};

    /// A decoder that has received nothing and expects nothing.
    pub fn new(alloc: Global) -> Self
        ensures { result ≡ record { received = 0; expected = None; taken = []; bad = None } }
    {
        Decoder {
            alloc,
            received: 0,
            expected: None,
            bad: None,
            taken: 0,
            held: Held::new(alloc),
            rooms: Rooms::none(alloc),
        }
    }

    /// How many bytes it has received, those of the frame under way among them.
    pub fn received(&self) -> u64
        ensures count { result ≡ self.now.received + length self.now.taken }
        ensures sound { IsReading self.now }
    {
        self.received + self.taken as u64
    }

    /// Names the place of the next frame, and makes all room that the frame takes.
    ///
    /// # Errors
    ///
    /// Only where memory runs out; then nothing is expected still.
    pub fn expect(&mut self, place: Expect) -> Result<(), AllocError>
        requires idle { self.old.expected ≡ None }
        requires short { IsShortPlace place }
        requires fits { self.old.received + 2 ^ 29 ≤ 2 ^ 64 }
        ensures expects { OnOk result (self.new ≡ record self.old { expected = Some place }) }
        ensures refused { OnErr result (self.new ≡ self.old) }
    {
        self.held.reserve(place)?;
        self.rooms = Rooms::at(self.alloc, place)?;
        self.expected = Some(place);
        Ok(())
    }

    /// How many bytes of the frame are still wanted. Where one byte decides between two lengths, no more are than up to it. None
    /// are where nothing is expected, or a byte was bad.
    pub fn wants(&self) -> usize
        ensures count { result ≡ wanted self.now }
        ensures sound { IsReading self.now }
    {
        if self.bad.is_some() {
            return 0;
        }
        match self.expected {
            Some(place) => self.held.frame_length(place) - self.taken,
            None => 0,
        }
    }

    /// Takes the first bytes of a piece, as many as it wants, and says how many.
    ///
    /// # Errors
    ///
    /// Where one of those bytes is the first after which no frame that is expected can follow: another kind, another
    /// length, the last byte of an element that is the prime or more, a bit other than 0 and 1, a code out of its range.
    /// From then on every piece is answered by the same.
    pub fn feed(&mut self, piece: &[u8]) -> Result<usize, BadFrame>
        ensures takes { IfOk result (λ count. Takes self.old piece.now count self.new) }
        ensures bad { IfErr result (λ bad. Refuses self.old piece.now bad self.new) }
    {
        if let Some(bad) = self.bad {
            return Err(bad);
        }
        let Some(place) = self.expected else {
            return Ok(0);
        };
        let count = piece.len().min(self.held.frame_length(place) - self.taken);
        match self.held.take(place, &piece[..count]) {
            None => {
                self.taken += count;
                Ok(count)
            }
            Some(n) => {
                let bad = BadFrame {
                    place: self.received + (self.taken + n) as u64,
                    kind: self.held.kind(place),
                };
                self.bad = Some(bad);
                Err(bad)
            }
        }
    }

    /// The frame, once it is whole. Then nothing is expected any more.
    pub fn next(&mut self) -> Option<Frame>
        ensures gives { IfSome result (λ frame. Gives self.old (frame_value frame) self.new) }
        ensures not_whole { IfNone result (IsNotWhole self.old) }
        ensures wanting { IfNone result (IsIdle self.old ⊎ 0 < wanted self.old) }
        ensures kept { IfNone result (self.new ≡ self.old) }
    {
        if self.bad.is_some() {
            return None;
        }
        let Some(place) = self.expected else {
            return None;
        };
        if self.taken < self.held.frame_length(place) {
            return None;
        }
        let frame = whole_frame(self.alloc, place, &mut self.held, &mut self.rooms);
        self.held.clear();
        self.received += self.taken as u64;
        self.expected = None;
        self.taken = 0;
        Some(frame)
    }
}
