// A log that is being written.
ghost use Rattle.std.specs.Prelude.{◌≡◌, ◌↔◌, ◌⊎◌, ◌++◌, ◌+◌, ◌<◌, ◌≤◌, [], ℕ, true, length, take, max, vec_len, vec_capacity, OnOk, OnErr, IfOk, IfSome, IsTrue};
ghost use Rattle.zk_model.specs.Transcript.{bytes_from};
ghost use Rattle.zk_port.specs.Counts.{HasCause};
ghost use Rattle.zk_port.specs.Links.{after_send, SendsPart, Receives};
ghost use Rattle.frame_link.specs.Lines.{RefusesReceive};

use crate::log::{Log, Run, note_bytes};
use std::alloc::{AllocError, Global};
use std::marker::Model;
use zk_model::Side;
use zk_port::{Link, PortFault};

/// A log that is being written, with room for so many bytes more that one side sends at once.
#[derive(Drop)]
pub(crate) struct LogWriter {
    bytes: Vec<u8>,
    runs: Vec<Run>,
    room: usize,
}

impl Model for LogWriter {
    ghost use Rattle.std.specs.Prelude.{vec_capacity};
    ghost use Rattle.frame_link.specs.Runs.{WrittenLog, IsWritten, entries};

    ghost Value = { WrittenLog };

    ghost view = { λ l. record { entries = entries l.runs.items l.bytes.items; room = l.room } };

    ghost invariant = { λ l.
        IsWritten l.runs.items l.bytes.items l.room (vec_capacity l.bytes) (vec_capacity l.runs) };
}

impl LogWriter {
    /// A log of nothing, with no room.
    pub(crate) fn new(alloc: Global) -> Self
        ensures { result ≡ record { entries = []; room = 0 } }
    {
        LogWriter {
            bytes: Vec::new(alloc),
            runs: Vec::new(alloc),
            room: 0,
        }
    }

    /// What is written.
    pub(crate) fn end(self) -> Log
        ensures { result ≡ self.entries }
    {
        let LogWriter { bytes, runs, .. } = self;
        Log::of(bytes, runs)
    }

    /// Keeps room for at least so many bytes that one side sends at once.
    ///
    /// # Errors
    ///
    /// Only where memory runs out; then nothing changes.
    pub(crate) fn reserve(&mut self, count: usize) -> Result<(), AllocError>
        ensures kept { OnOk result (self.new ≡ record self.old { room = max self.old.room count }) }
        ensures refused { OnErr result (self.new ≡ self.old) }
    {
        let room = self.room.max(count);
        self.runs.reserve(1)?;
        self.bytes.reserve(room)?;
        self.room = room;
        Ok(())
    }

    /// Sends these bytes over a link, by one call of it, and notes them for this side.
    ///
    /// # Errors
    ///
    /// As the link's send; then nothing is noted.
    pub(crate) fn send<L: Link>(
        &mut self,
        alloc: Global,
        link: &mut L,
        side: Side,
        bytes: &[u8],
    ) -> Result<(), PortFault>
        requires open { IsTrue (L.state link.old).is_open }
        requires room { length bytes.now ≤ self.old.room }
        ensures noted { OnOk result (self.new
            ≡ record { entries = self.old.entries ++ bytes_from side bytes.now; room = 0 }) }
        ensures sent { OnOk result (L.state link.new ≡ after_send bytes.now (L.state link.old)) }
        ensures unnoted { OnErr result (self.new ≡ self.old) }
        ensures refused { OnErr result (SendsPart bytes.now (L.state link.old) (L.state link.new)) }
        ensures cause { HasCause (L.state link.old).faults (L.state link.new).faults result }
    {
        link.send(alloc, bytes)?;
        note_bytes(&mut self.bytes, &mut self.runs, side, bytes);
        self.room = 0;
        Ok(())
    }

    /// Takes the next bytes of the peer, whose side this is, over a link into the front of a buffer, and notes them. The room
    /// stays.
    ///
    /// # Errors
    ///
    /// As the link's receive, or where memory runs out; then nothing is noted.
    pub(crate) fn receive<L: Link>(
        &mut self,
        alloc: Global,
        link: &mut L,
        peer: Side,
        buffer: &mut [u8],
    ) -> Result<usize, PortFault>
        requires open { IsTrue (L.state link.old).is_open }
        ensures within { IfOk result (λ n. n ≤ length buffer.old) }
        ensures length { length buffer.new ≡ length buffer.old }
        ensures noted { IfOk result (λ n. self.new
            ≡ record self.old { entries = self.old.entries ++ bytes_from peer (take n buffer.new) }) }
        ensures taken { IfOk result (λ n. Receives (length buffer.old) n (take n buffer.new)
            (L.state link.old) (L.state link.new)) }
        ensures unnoted { OnErr result (self.new ≡ self.old) }
        ensures refused { OnErr result (RefusesReceive (L.state link.old) (L.state link.new)) }
        ensures cause { HasCause (L.state link.old).faults (L.state link.new).faults result }
    {
        self.runs.reserve(2)?;
        self.bytes.reserve(buffer.len() + self.room)?;
        let count = link.receive(alloc, buffer)?;
        note_bytes(&mut self.bytes, &mut self.runs, peer, &buffer[..count]);
        Ok(count)
    }
}
