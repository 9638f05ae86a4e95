// Streams of TCP.
ghost use Rattle.std.specs.Prelude.{◌≡◌, ◌≤◌, drop, length, is_some, Err, IfOk};
ghost use Rattle.zk_port.specs.Counts.{HasCause};
ghost use Rattle.zk_port.specs.Doors.{IsFreshLink};

use crate::patience::Patience;
use crate::reading::read_piece;
use crate::reason::{Outside, Reason, keep_reason};
use crate::refusals::refusal;
use std::alloc::Global;
use std::io;
use std::io::{ErrorKind, Read, Write};
use std::net::{OpenStream, Shutdown, SocketAddr};
use std::time::Clock;
use zk_port::{Link, PortFault};

/// How many pieces that came and were not read are taken when a stream ends.
const LAST_PIECES: usize = 64;

/// A stream of TCP, which is closed when it ends. A reset is a failed receive, and so is a silence that is longer than its patience.
/// Small frames go out at once.
#[derive(Drop)]
pub struct TcpLink<S, C> {
    stream: Option<S>,
    patience: Patience<C>,
    peer: Option<SocketAddr>,
    sends: u64,
    refused_sends: u64,
    receives: u64,
    faults: u64,
    reason: Option<Reason>,
}

impl<S: Read + Write + OpenStream + Drop, C: Clock + Drop> TcpLink<S, C> {
    /// A link over a stream over which nothing has passed yet.
    pub(crate) fn new(stream: S, patience: Patience<C>) -> Self
        ensures { IsFreshLink (⟦<TcpLink<S, C> as Link>⟧.state result) }
    {
        patience.begin(&stream);
        let _ = stream.set_nodelay(true); // a stream that has no such option is slower, and no worse
        let peer = stream.peer_addr().ok();
        TcpLink {
            stream: Some(stream),
            patience,
            peer,
            sends: 0,
            refused_sends: 0,
            receives: 0,
            faults: 0,
            reason: None,
        }
    }
}

impl<S, C> TcpLink<S, C> {
    /// Why the first call that failed did.
    pub fn reason(&self) -> Option<&Reason> {
        self.reason.as_ref()
    }

    /// A call that was refused.
    fn refused(&mut self, alloc: Global, error: io::Error) -> PortFault
        ensures cause { HasCause {T = Unit {0}} self.old.faults self.new.faults (Err result) }
        ensures rest { self.new ≡ record self.old { faults = self.new.faults; reason = self.new.reason } }
    {
        let name = match self.peer {
            Some(peer) => format!(in alloc; "{peer}"),
            None => String::from_str(alloc, "unknown"),
        };
        if let Ok(name) = name {
            keep_reason(&mut self.reason, alloc, Outside::Link, &name, error);
        }
        refusal(error, &mut self.faults)
    }
}

/// Writes all of these bytes.
fn write_to<S: Write + OpenStream, C: Clock>(
    stream: &mut Option<S>,
    patience: &mut Patience<C>,
    bytes: &[u8],
) -> io::Result<()>
    ensures open { is_some stream.new ≡ is_some stream.old }
{
    match stream {
        Some(stream) => {
            patience.before_send(&*stream);
            stream.write_all(bytes)
        }
        None => Err(io::Error::from(ErrorKind::NotConnected)),
    }
}

/// Takes the next bytes into the front of the buffer, and says how many.
fn read_from<S: Read + OpenStream, C: Clock>(
    stream: &mut Option<S>,
    patience: &Patience<C>,
    buffer: &mut [u8],
) -> io::Result<usize>
    ensures open { is_some stream.new ≡ is_some stream.old }
    ensures count { IfOk result (λ n. n ≤ length buffer.old) }
    ensures rest { IfOk result (λ n. drop n buffer.new ≡ drop n buffer.old) }
{
    match stream {
        Some(stream) => {
            patience.before_receive(&*stream)?;
            let n = read_piece(stream, buffer)?;
            Ok(n)
        }
        None => Err(io::Error::from(ErrorKind::NotConnected)),
    }
}

/// Ends the sending side, takes what has come and was not read, as far as it can be had without waiting, and closes: a stream that is
/// closed over unread bytes is reset, and the peer may then lose the last frame.
fn end_stream<S: Read + OpenStream + Drop>(stream: S) -> io::Result<()> {
    let mut stream = stream;
    stream.shutdown(Shutdown::Write)?;
    stream.set_nonblocking(true)?;
    let mut piece = [0; 4096];
    for _ in 0..LAST_PIECES {
        if stream.read(&mut piece)? == 0 {
            break;
        }
    }
    Ok(())
}

impl<S: Read + Write + OpenStream + Drop, C: Clock + Drop> Link for TcpLink<S, C> {
    ghost use Rattle.std.specs.Prelude.{None, is_some};

    ghost state = { λ l. record {
      log = None;
      to_come = None;
      ended = None;
      is_open = is_some l.stream;
      sends = l.sends;
      refused_sends = l.refused_sends;
      receives = l.receives;
      faults = l.faults;
    } };

    fn faults(&self) -> u64 {
        self.faults
    }

    fn send(&mut self, alloc: Global, bytes: &[u8]) -> Result<(), PortFault> {
        self.sends = self.sends.saturating_add(1);
        match write_to(&mut self.stream, &mut self.patience, bytes) {
            Ok(()) => Ok(()),
            Err(error) => {
                self.refused_sends = self.refused_sends.saturating_add(1);
                Err(self.refused(alloc, error))
            }
        }
    }

    fn receive(&mut self, alloc: Global, buffer: &mut [u8]) -> Result<usize, PortFault> {
        self.receives = self.receives.saturating_add(1);
        match read_from(&mut self.stream, &self.patience, buffer) {
            Ok(n) => Ok(n),
            Err(error) => Err(self.refused(alloc, error)),
        }
    }

    fn end(&mut self) {
        if let Some(stream) = self.stream.take() {
            let _ = end_stream(stream);
        }
    }
}
