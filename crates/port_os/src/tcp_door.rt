// Connections of TCP.
ghost use Rattle.std.specs.Prelude.{◌≡◌, None, IfOk};
ghost use Rattle.zk_port.specs.Doors.{IsFreshLink, unasked_door};

use crate::patience::{Patience, left_until};
use crate::reason::{Outside, Reason, keep_reason};
use crate::refusals::refusal;
use crate::tcp_link::TcpLink;
use std::alloc::{AllocError, Global};
use std::io::ErrorKind;
use std::net::{Net, OpenListener, SocketAddr, TcpListener, TcpStream, ToSocketAddrs};
use std::time::{Clock, Duration};
use std::{io, thread};
use zk_port::{Door, Link, PortFault};

/// The numbers of the system's errors of an accept that pass, beside those of a kind: too many open files here (24) and in all (23), no
/// room for a socket (105), and a protocol's error (71), of a network that is not there (64, 92, 95, 112).
const PASSING: [i32; 8] = [23, 24, 64, 71, 92, 95, 105, 112];

/// How many milliseconds the first pause has before an accept is tried again, and the longest one.
const FIRST_PAUSE: u64 = 10;

const LAST_PAUSE: u64 = 1_000;

/// Connections of TCP. It listens once for all sessions, and gives as many links as there are sessions; once the last was taken nobody
/// listens any more. An accept that fails by what passes is tried again. An address is that of an interface or a host's name, and a port.
#[derive(Drop)]
pub struct TcpDoor<R: Net> {
    rt: R,
    listener: Option<R::Listener>,
    address: Option<SocketAddr>,
    patience: u32,
    left: u32,
    made: u64,
    nexts: u64,
    listen_faults: u64,
    connect_faults: u64,
    next_faults: u64,
    reason: Option<Reason>,
}

/// A stream to the first of the host's addresses that answers, in so many seconds for all of them.
fn connect_within<R: Net + Clock>(rt: &R, address: &str, seconds: u32) -> io::Result<R::Stream> {
    let until = rt
        .monotonic()?
        .saturating_add(Duration::from_secs(u64::from(seconds)));
    let mut last = io::Error::from(ErrorKind::AddrNotAvailable);
    for found in address.to_socket_addrs(rt)? {
        let left = left_until(rt, until)?;
        match TcpStream::connect_timeout(rt, &found, left) {
            Ok(stream) => return Ok(stream),
            Err(error) => last = error,
        }
    }
    Err(last)
}

/// Whether an accept failed by what passes: a connection that was ended before it was taken, no descriptors, or the network (accept(2)).
fn passes(error: &io::Error) -> bool {
    match error.kind() {
        ErrorKind::ConnectionAborted
        | ErrorKind::ConnectionReset
        | ErrorKind::HostUnreachable
        | ErrorKind::NetworkDown
        | ErrorKind::NetworkUnreachable
        | ErrorKind::Interrupted
        | ErrorKind::TimedOut => true,
        _ => matches!(error.raw_os_error(), Some(code) if PASSING.contains(&code)),
    }
}

/// The next connection. An accept that fails by what passes is tried again, after a pause that grows to a second.
fn accept_patiently<R: Clock, L: OpenListener>(rt: &R, listener: &L) -> io::Result<L::Stream> {
    let mut pause = FIRST_PAUSE;
    for _ in 0..u64::MAX {
        match listener.accept() {
            Ok((stream, _)) => return Ok(stream),
            Err(error) => {
                if !passes(&error) {
                    return Err(error);
                }
            }
        }
        thread::sleep(rt, Duration::from_millis(pause));
        pause = pause.saturating_mul(2).min(LAST_PAUSE);
    }
    Err(io::Error::from(ErrorKind::TimedOut))
}

impl<R: Net + Clock + Copy> TcpDoor<R> {
    /// A door of which nothing was asked yet.
    pub fn new(rt: R) -> Self
        ensures { ⟦<TcpDoor<R> as Door>⟧.state result ≡ unasked_door (λ n. n) None }
    {
        TcpDoor {
            rt,
            listener: None,
            address: None,
            patience: 0,
            left: 0,
            made: 0,
            nexts: 0,
            listen_faults: 0,
            connect_faults: 0,
            next_faults: 0,
            reason: None,
        }
    }

    /// Why the first call that failed did.
    pub fn reason(&self) -> Option<&Reason> {
        self.reason.as_ref()
    }

    /// A link to who listens at the address, where the host answers within the patience.
    fn call(&self, address: &str, patience: u32) -> io::Result<TcpLink<R::Stream, R>>
        ensures { IfOk result (λ link. IsFreshLink (⟦<TcpLink<R::Stream, R> as Link>⟧.state link)) }
    {
        let stream = connect_within(&self.rt, address, patience)?;
        Ok(TcpLink::new(stream, Patience::of_caller(self.rt, patience)))
    }

    /// The next peer that calls.
    fn accept(&self) -> io::Result<TcpLink<R::Stream, R>>
        ensures { IfOk result (λ link. IsFreshLink (⟦<TcpLink<R::Stream, R> as Link>⟧.state link)) }
    {
        let Some(listener) = &self.listener else {
            return Err(io::Error::from(ErrorKind::NotConnected));
        };
        let stream = accept_patiently(&self.rt, listener)?;
        let patience = Patience::of_called(self.rt, self.patience);
        Ok(TcpLink::new(stream, patience))
    }
}

impl<R: Net + Clock + Copy> Door for TcpDoor<R> {
    ghost use Rattle.std.specs.Prelude.{None};
    ghost use Rattle.zk_port.specs.Doors.{unasked_door};

    type Link = TcpLink<R::Stream, R>;

    ghost state = { λ d. record (unasked_door (λ n. n) None) {
      left = d.left;
      made = d.made;
      nexts = d.nexts;
      listen_faults = d.listen_faults;
      connect_faults = d.connect_faults;
      next_faults = d.next_faults;
    } };

    fn listen(
        &mut self,
        alloc: Global,
        address: &str,
        patience: u32,
        sessions: u32,
    ) -> Result<(), PortFault> {
        match TcpListener::bind(&self.rt, address) {
            Ok(listener) => {
                self.address = listener.local_addr().ok();
                self.listener = Some(listener);
                self.patience = patience;
                self.left = sessions;
                Ok(())
            }
            Err(error) => {
                keep_reason(&mut self.reason, alloc, Outside::Door, address, error);
                Err(refusal(error, &mut self.listen_faults))
            }
        }
    }

    fn address(&self, alloc: Global) -> Result<String, AllocError> {
        match self.address {
            Some(address) => Ok(format!(in alloc; "{address}")?),
            None => Err(AllocError),
        }
    }

    fn connect(
        &mut self,
        alloc: Global,
        address: &str,
        patience: u32,
    ) -> Result<Self::Link, PortFault> {
        match self.call(address, patience) {
            Ok(link) => {
                self.made = self.made.saturating_add(1);
                Ok(link)
            }
            Err(error) => {
                keep_reason(&mut self.reason, alloc, Outside::Door, address, error);
                Err(refusal(error, &mut self.connect_faults))
            }
        }
    }

    fn next(&mut self, alloc: Global) -> Result<Option<Self::Link>, PortFault> {
        self.nexts = self.nexts.saturating_add(1);
        if self.left == 0 {
            return Ok(None);
        }
        match self.accept() {
            Ok(link) => {
                self.left -= 1;
                if self.left == 0 {
                    self.listener = None; // who calls later is refused at once
                }
                Ok(Some(link))
            }
            Err(error) => {
                keep_reason(&mut self.reason, alloc, Outside::Door, "accept", error);
                Err(refusal(error, &mut self.next_faults))
            }
        }
    }
}
