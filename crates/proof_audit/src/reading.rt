// Frames, read from the bytes of a log.
ghost use Rattle.std.specs.Prelude.{◌≡◌, ◌+◌, ◌<◌, ◌≤◌, ◌^◌, nat_eq, None, Some, [], length, IfErr, IfNone, IfOk, IfSome};
ghost use Rattle.proof_frames.specs.Frames.{frame_value};
ghost use Rattle.proof_frames.specs.Readings.{IsShortPlace};
ghost use Rattle.proof_audit.specs.Reading.{IsBetweenFrames, IsFreshReader, IsFed, IsFedWhole, FindsBad, TakesFrame, StopsEarly, FindsFault};

use crate::fault::AuditFault;
use proof_frames::{BadFrame, Decoder, Expect, Frame};
use std::alloc::Global;

/// Reads frames from the bytes of a log, one after another.
#[derive(Drop)]
pub struct LogReader<'a> {
    decoder: Decoder,
    rest: &'a [u8],
}

/// Feeds a decoder from the first bytes of a log, until the frame that it expects is whole or the log ends. What is left is
/// handed back.
fn feed_frame<'a>(
    decoder: &mut Decoder,
    log: &'a [u8],
    _place: Expect,
) -> Result<&'a [u8], BadFrame>
    requires expected { decoder.old.expected ≡ Some _place }
    requires begins { decoder.old.taken ≡ [] }
    requires fine { decoder.old.bad ≡ None }
    ensures fed { IfOk result (λ rest. IsFedWhole _place log.now decoder.old rest.now decoder.new) }
    ensures bad { IfErr result (λ bad. FindsBad _place log.now decoder.old bad.place) }
{
    let mut rest = log;
    'pieces: while decoder.wants() > 0 {
        if rest.is_empty() {
            return Ok(rest);
        }
        let count = decoder.feed(rest)?;
        let (_, behind) = rest.split_at(count);
        rest = behind;
    }
    Ok(rest)
}

impl<'a> LogReader<'a> {
    /// A reader that has read nothing of a log.
    pub fn new(alloc: Global, log: &'a [u8]) -> Self
        ensures { IsFreshReader log.now result }
    {
        LogReader {
            decoder: Decoder::new(alloc),
            rest: log,
        }
    }

    /// How many bytes it has read.
    pub fn at(&self) -> u64
        requires { IsBetweenFrames self.now }
        ensures { result ≡ self.now.decoder.received }
    {
        self.decoder.received()
    }

    /// Whether it has read all.
    pub fn is_at_end(&self) -> bool
        ensures { result ≡ nat_eq (length self.now.rest.now) 0 }
    {
        self.rest.is_empty()
    }

    /// The next frame, which is one that the place allows; none where the log ends before it is whole.
    ///
    /// # Errors
    ///
    /// `LogFault` where a byte is the first after which no such frame can follow, `NoMemory`.
    pub fn next(&mut self, place: Expect) -> Result<Option<Frame>, AuditFault>
        requires between { IsBetweenFrames self.old }
        requires short { IsShortPlace place }
        requires fits { self.old.decoder.received + 2 ^ 29 ≤ 2 ^ 64 }
        ensures takes { IfOk result (λ read. IfSome read (λ frame.
            TakesFrame place (frame_value frame) self.old self.new)) }
        ensures early { IfOk result (λ read. IfNone read (StopsEarly place self.old.rest.now)) }
        ensures fault { IfErr result (FindsFault place self.old) }
    {
        self.decoder.expect(place)?;
        match feed_frame(&mut self.decoder, self.rest, place) {
            Ok(rest) => {
                self.rest = rest;
                Ok(self.decoder.next())
            }
            Err(bad) => Err(AuditFault::LogFault { place: bad.place }),
        }
    }
}
