// Peers: provers that are honest over whichever units they are granted, and a broker of a block.
ghost use Rattle.std.specs.Prelude.{◌≡◌};
ghost use Rattle.zk_port.specs.Doors.{IsFreshLink};

use crate::vectors::{AND_HELLO, AND_RESTS};
use std::alloc::Global;
use zk_port::{Link, PortFault};

/// What an honest prover sends after a grant of the unit of this number, or nothing.
fn rest_of(start: u8) -> &'static [u8] {
    let rests: &'static [u8] = &AND_RESTS;
    let from = 63 * usize::from(start);
    match rests.get(from..from + 63) {
        Some(rest) => rest,
        None => &[],
    }
}

/// The reply of a broker to node 1: for its want 1, the units 0 to 3.
const BLOCK: [u8; 29] = [
    12, 24, 0, 0, 0, 1, 0, 0, 0, 1, 0, 0, 0, 0, 0, 0, 0, 0, 0, 0, 0, 0, 0, 0, 0, 4, 0, 0, 0,
];

/// A link whose peer proves the and gate's claim, over one of the first four units, which the verifier grants it; or is a broker that has
/// a block of these four for any want. It tells nothing.
#[derive(Drop)]
pub struct HonestPeer {
    to_come: &'static [u8],
    is_open: bool,
    sends: u64,
    receives: u64,
}

impl HonestPeer {
    /// One that begins so, and is honest where this is its hello.
    pub fn new(hello: &'static [u8]) -> Self
        ensures { IsFreshLink (⟦<HonestPeer as Link>⟧.state result) }
    {
        HonestPeer {
            to_come: hello,
            is_open: true,
            sends: 0,
            receives: 0,
        }
    }

    /// One that is honest.
    pub fn honest() -> Self
        ensures { IsFreshLink (⟦<HonestPeer as Link>⟧.state result) }
    {
        HonestPeer::new(&AND_HELLO)
    }

    /// The broker.
    pub fn broker() -> Self
        ensures { IsFreshLink (⟦<HonestPeer as Link>⟧.state result) }
    {
        HonestPeer::new(&[])
    }
}

impl Link for HonestPeer {
    ghost use Rattle.std.specs.Prelude.{None};

    ghost state = { λ l. record {
      log = None;
      to_come = None;
      ended = None;
      is_open = l.is_open;
      sends = l.sends;
      refused_sends = 0;
      receives = l.receives;
      faults = 0;
    } };

    fn faults(&self) -> u64 {
        0
    }

    fn send(&mut self, _alloc: Global, bytes: &[u8]) -> Result<(), PortFault> {
        self.sends = self.sends.saturating_add(1);
        // A grant is a frame of kind 2, whose payload begins with the first unit, the low byte first; a want is one of kind 11.
        match bytes {
            [2, _, _, _, _, start, ..] => self.to_come = rest_of(*start),
            [11, ..] => self.to_come = &BLOCK,
            _ => {}
        }
        Ok(())
    }

    fn receive(&mut self, _alloc: Global, buffer: &mut [u8]) -> Result<usize, PortFault> {
        self.receives = self.receives.saturating_add(1);
        let count = buffer.len().min(self.to_come.len());
        let (piece, behind) = self.to_come.split_at(count);
        let (front, _) = buffer.split_at_mut(count);
        front.copy_from_slice(piece);
        self.to_come = behind;
        Ok(count)
    }

    fn end(&mut self) {
        self.is_open = false;
    }
}
