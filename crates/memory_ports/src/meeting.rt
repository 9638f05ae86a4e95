// A link whose peer waits for others.
ghost use Rattle.std.specs.Prelude.{◌≡◌};

use std::alloc::Global;
use std::sync::{Barrier, Wait};
use zk_port::{Link, PortFault};

/// A link whose peer, once something was sent to it, goes on only when as many peers were sent to as the barrier has places.
#[derive(Drop)]
pub struct Meeting<'a, L, R> {
    link: L,
    rt: &'a R,
    barrier: &'a Barrier,
    is_sent: bool,
    has_met: bool,
}

impl<'a, L: Link, R: Wait> Meeting<'a, L, R> {
    /// A link to which nothing was sent yet.
    pub fn new(link: L, rt: &'a R, barrier: &'a Barrier) -> Self
        ensures { ⟦<Meeting<'a, L, R> as Link>⟧.state result ≡ L.state link }
    {
        Meeting {
            link,
            rt,
            barrier,
            is_sent: false,
            has_met: false,
        }
    }
}

impl<'a, L: Link, R: Wait> Link for Meeting<'a, L, R> {
    ghost state = { λ m. L.state m.link };

    fn faults(&self) -> u64 {
        self.link.faults()
    }

    fn send(&mut self, alloc: Global, bytes: &[u8]) -> Result<(), PortFault> {
        self.is_sent = true;
        self.link.send(alloc, bytes)
    }

    fn receive(&mut self, alloc: Global, buffer: &mut [u8]) -> Result<usize, PortFault> {
        if self.is_sent && !self.has_met {
            self.has_met = true;
            self.barrier.wait(self.rt);
        }
        self.link.receive(alloc, buffer)
    }

    fn end(&mut self) {
        self.link.end();
    }
}
