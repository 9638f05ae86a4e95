// How long a silent peer is waited for.
use std::io;
use std::io::ErrorKind;
use std::net::OpenStream;
use std::time::{Clock, Duration};

/// How long a link waits: for each piece that comes or goes, and, as long as this end has not sent, for all that comes until a moment of
/// the clock.
#[derive(Clone, Copy)]
pub(crate) struct Patience<C> {
    clock: C,
    each: Duration,
    until: Option<Duration>,
}

/// What is left until a moment of the clock, if it has not passed.
pub(crate) fn left_until<C: Clock>(clock: &C, until: Duration) -> io::Result<Duration> {
    let left = until.saturating_sub(clock.monotonic()?);
    if left.is_zero() {
        return Err(io::Error::from(ErrorKind::TimedOut));
    }
    Ok(left)
}

impl<C: Clock> Patience<C> {
    /// A link of this end's making, which waits so many seconds for each piece.
    pub(crate) fn of_caller(clock: C, seconds: u32) -> Self {
        Patience {
            clock,
            each: Duration::from_secs(u64::from(seconds)),
            until: None,
        }
    }

    /// A link of a peer's making, which also waits no longer than so many seconds until this end first sends.
    pub(crate) fn of_called(clock: C, seconds: u32) -> Self {
        let each = Duration::from_secs(u64::from(seconds));
        let until = match clock.monotonic() {
            Ok(now) => Some(now.saturating_add(each)),
            Err(_) => None,
        };
        Patience { clock, each, until }
    }

    /// Has a stream wait no longer for each piece. One that has no such option waits on.
    pub(crate) fn begin<S: OpenStream>(&self, stream: &S) {
        let _ = stream.set_read_timeout(Some(self.each));
        let _ = stream.set_write_timeout(Some(self.each));
    }

    /// Has a stream wait for the next piece as long as it may.
    pub(crate) fn before_receive<S: OpenStream>(&self, stream: &S) -> io::Result<()> {
        if let Some(until) = self.until {
            let left = left_until(&self.clock, until)?;
            let _ = stream.set_read_timeout(Some(left));
        }
        Ok(())
    }

    /// Notes that this end sends: from now on each piece has its own time.
    pub(crate) fn before_send<S: OpenStream>(&mut self, stream: &S) {
        if self.until.is_some() {
            self.until = None;
            let _ = stream.set_read_timeout(Some(self.each));
        }
    }
}
