// One end of a session's stream: frames over a link.
ghost use Rattle.std.specs.Prelude.{◌≡◌, ◌+◌, ◌<◌, ◌≤◌, ◌^◌, None, Some, [], length, map, max, flat_map, false, All, IfOk, IfErr, OnOk, OnErr, IsTrue};
ghost use Rattle.zk_model.specs.Frames.{frame_spelling};
ghost use Rattle.proof_frames.specs.Frames.{frame_value, IsShort};
ghost use Rattle.proof_frames.specs.Readings.{IsShortPlace, wanted};
ghost use Rattle.frame_link.specs.Lines.{PieceComes, PiecesCome, PieceFails, Arrives, Fails, Sends, IsSendRefused, fresh_line, snapshot, snapshot_of};
ghost use Rattle.frame_link.specs.Sides.{peer_of};

use crate::fault::LineFault;
use crate::log::Log;
use crate::writer::LogWriter;
use proof_frames::{Decoder, Expect, Frame, encode};
use std::alloc::{AllocError, Global};
use std::marker::Model;
use zk_model::Side;
use zk_port::Link;

/// How many bytes are received at once, at most.
const PIECE: usize = 4096;

/// One end of a session's stream: the link, the log of all that passed, and the decoder of what the peer sends. Contracts see
/// of it a `LineState`.
#[derive(Drop)]
pub struct Line<L: Link> {
    link: L,
    side: Side,
    log: LogWriter,
    decoder: Decoder,
}

impl<L: Link> Model for Line<L> {
    ghost use Rattle.frame_link.specs.Lines as lines;

    ghost Value = { lines.LineState };

    ghost view = { λ l. lines.line_state l.side l.log.entries l.decoder l.log.room (L.state l.link) };
}

/// The other side.
fn peer(side: Side) -> Side
    ensures { result ≡ peer_of side }
{
    match side {
        Side::Prover => Side::Verifier,
        Side::Verifier => Side::Prover,
    }
}

/// Frames as they are sent, one after another.
fn encode_frames(alloc: Global, frames: &[Frame]) -> Result<Vec<u8>, AllocError>
    requires { All IsShort (map frame_value frames.now) }
    ensures { IfOk result (λ bytes. bytes.items ≡ flat_map frame_spelling (map frame_value frames.now)) }
{
    let mut bytes = Vec::new(alloc);
    for frame in frames {
        let more = encode(alloc, frame)?;
        bytes.extend_from_slice(&more)?;
    }
    Ok(bytes)
}

impl<L: Link> Line<L> {
    /// An end of a stream over which nothing is logged or read yet, of this side.
    pub fn new(alloc: Global, link: L, side: Side) -> Self
        ensures { result ≡ fresh_line side (L.state link) }
    {
        Line {
            link,
            side,
            log: LogWriter::new(alloc),
            decoder: Decoder::new(alloc),
        }
    }

    /// Takes the next frame of the peer, which is to be one that the place allows.
    ///
    /// # Errors
    ///
    /// `PeerEnded` where the peer ended before, `BadFrame` where no such frame can be, `Link` where the link failed,
    /// `NoMemory`.
    pub fn take(&mut self, alloc: Global, place: Expect) -> Result<Frame, LineFault>
        requires open { IsTrue self.old.is_open }
        requires idle { self.old.reading.expected ≡ None }
        requires short { IsShortPlace place }
        requires fits { self.old.reading.received + 2 ^ 29 ≤ 2 ^ 64 }
        ensures arrives { IfOk result (λ frame. Arrives place (frame_value frame) self.old self.new) }
        ensures fails { IfErr result (λ fault. Fails place fault self.old self.new) }
    {
        let _wants = self.decoder.wants();
        self.decoder.expect(place)?;
        self.take_pieces(alloc, place)?;
        match self.decoder.next() {
            Some(frame) => Ok(frame),
            None => unreachable!(),
        }
    }

    /// Takes pieces until the frame is whole.
    fn take_pieces(&mut self, alloc: Global, _place: Expect) -> Result<(), LineFault>
        requires open { IsTrue self.old.is_open }
        requires expected { self.old.reading.expected ≡ Some _place }
        requires fine { self.old.reading.bad ≡ None }
        requires begins { self.old.reading.taken ≡ [] }
        ensures whole { OnOk result (PiecesCome _place self.old self.new) }
        ensures fails { IfErr result (λ fault. Fails _place fault self.old self.new) }
    {
        let mut buffer = [0; PIECE];
        'pieces: while self.decoder.wants() > 0 {
            self.take_piece(alloc, _place, &mut buffer)?;
        }
        Ok(())
    }

    /// Takes more bytes of the frame that is expected, by one receive.
    fn take_piece(
        &mut self,
        alloc: Global,
        _place: Expect,
        buffer: &mut [u8],
    ) -> Result<(), LineFault>
        requires open { IsTrue self.old.is_open }
        requires room { 1 ≤ length buffer.old }
        requires expected { self.old.reading.expected ≡ Some _place }
        requires fine { self.old.reading.bad ≡ None }
        requires wanting { 0 < wanted self.old.reading }
        ensures room_stays { length buffer.new ≡ length buffer.old }
        ensures comes { OnOk result (PieceComes _place self.old self.new) }
        ensures fails { IfErr result (λ fault. PieceFails _place fault self.old self.new) }
    {
        let most = self.decoder.wants().min(buffer.len());
        let (front, _) = buffer.split_at_mut(most);
        let count = self
            .log
            .receive(alloc, &mut self.link, peer(self.side), front)?;
        if count == 0 {
            let at = self.decoder.received();
            return Err(LineFault::PeerEnded { at });
        }
        match self.decoder.feed(&front[..count]) {
            Ok(_) => Ok(()),
            Err(bad) => Err(LineFault::BadFrame { place: bad.place }),
        }
    }

    /// Keeps room in the log for at least so many bytes, which are sent later by one send.
    ///
    /// # Errors
    ///
    /// Only where memory runs out; then nothing changes.
    pub fn reserve(&mut self, count: usize) -> Result<(), AllocError>
        ensures kept { OnOk result (self.new ≡ record self.old { room = max self.old.room count }) }
        ensures refused { OnErr result (self.new ≡ self.old) }
    {
        self.log.reserve(count)?;
        Ok(())
    }

    /// The bytes of frames, one after another, once there is room for them in the log. The link is not called.
    ///
    /// # Errors
    ///
    /// Only where memory runs out; then nothing changes.
    pub fn prepare(&mut self, alloc: Global, frames: &[Frame]) -> Result<Vec<u8>, AllocError>
        requires short { All IsShort (map frame_value frames.now) }
        ensures bytes { IfOk result (λ bytes.
            bytes.items ≡ flat_map frame_spelling (map frame_value frames.now)) }
        ensures kept { IfOk result (λ bytes.
            self.new ≡ record self.old { room = max self.old.room (length bytes.items) }) }
        ensures refused { OnErr result (self.new ≡ self.old) }
    {
        let bytes = encode_frames(alloc, frames)?;
        self.reserve(bytes.len())?;
        Ok(bytes)
    }

    /// Sends bytes for which there is room in the log, by one call of the link.
    ///
    /// # Errors
    ///
    /// `Link` where the link failed, `NoMemory` where it lacked memory; then a part of them may have gone out.
    pub fn send_prepared(&mut self, alloc: Global, bytes: &[u8]) -> Result<(), LineFault>
        requires open { IsTrue self.old.is_open }
        requires room { length bytes.now ≤ self.old.room }
        ensures sends { OnOk result (Sends bytes.now self.old self.new) }
        ensures fails { IfErr result (λ fault. IsSendRefused bytes.now fault self.old self.new) }
    {
        self.log.send(alloc, &mut self.link, self.side, bytes)?;
        Ok(())
    }

    /// Ends the stream from this side, and hands back the link and the log.
    pub fn end(self) -> (L, Log)
        requires open { IsTrue self.is_open }
        ensures passed { snapshot self.side result.1 (L.state result.0) ≡ snapshot_of self }
        ensures ended { (L.state result.0).is_open ≡ false }
    {
        let Line { mut link, log, .. } = self;
        link.end();
        (link, log.end())
    }
}
