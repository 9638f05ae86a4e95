// Standard output.
ghost use Rattle.std.specs.Prelude.{◌≡◌};

use crate::refusals::refusal;
use std::alloc::Global;
use std::io;
use std::io::Write;
use zk_port::{PortFault, Sink};

/// Standard output.
#[derive(Drop)]
pub struct OutputSink<R> {
    rt: R,
    faults: u64,
}

impl<R: Print> OutputSink<R> {
    /// Standard output, of which no call has failed yet.
    pub fn new(rt: R) -> Self
        ensures { (⟦<OutputSink<R> as Sink>⟧.state result).faults ≡ 0 }
    {
        OutputSink { rt, faults: 0 }
    }
}

impl<R: Print> Sink for OutputSink<R> {
    ghost use Rattle.std.specs.Prelude.{None};

    ghost state = { λ s. record { written = None; faults = s.faults } };

    fn faults(&self) -> u64 {
        self.faults
    }

    fn put(&mut self, _alloc: Global, bytes: &[u8]) -> Result<(), PortFault> {
        match io::writer(&self.rt).write_all(bytes) {
            Ok(()) => Ok(()),
            Err(error) => Err(refusal(error, &mut self.faults)),
        }
    }
}
