// Standard error.
ghost use Rattle.std.specs.Prelude.{◌≡◌};

use crate::refusals::refusal;
use std::alloc::Global;
use std::{io, str};
use zk_port::{PortFault, Sink};

/// Standard error, for what people follow a run by: texts alone are written.
#[derive(Drop)]
pub struct NoticeSink<R> {
    rt: R,
    faults: u64,
}

impl<R: Eprint> NoticeSink<R> {
    /// Standard error, of which no call has failed yet.
    pub fn new(rt: R) -> Self
        ensures { (⟦<NoticeSink<R> as Sink>⟧.state result).faults ≡ 0 }
    {
        NoticeSink { rt, faults: 0 }
    }
}

/// Writes a text.
fn write<R: Eprint>(rt: &R, bytes: &[u8]) -> io::Result<()> {
    match str::from_utf8(bytes) {
        Ok(text) => eprint!(rt; "{text}"),
        Err(_) => Err(io::Error::from(io::ErrorKind::InvalidData)),
    }
}

impl<R: Eprint> Sink for NoticeSink<R> {
    ghost use Rattle.std.specs.Prelude.{None};

    ghost state = { λ s. record { written = None; faults = s.faults } };

    fn faults(&self) -> u64 {
        self.faults
    }

    fn put(&mut self, _alloc: Global, bytes: &[u8]) -> Result<(), PortFault> {
        match write(&self.rt, bytes) {
            Ok(()) => Ok(()),
            Err(error) => Err(refusal(error, &mut self.faults)),
        }
    }
}
