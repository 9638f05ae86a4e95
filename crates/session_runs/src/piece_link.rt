// A link whose peer's bytes come in pieces, and which counts its calls.
ghost use Rattle.std.specs.Prelude.{◌≡◌, ◌≤◌, true, IfOk};
ghost use Rattle.zk_port.specs.Doors.{IsFreshLink};

use crate::scenario::Refused;
use memory_ports::{FailAt, ScriptedLink};
use std::alloc::{AllocError, Global};
use zk_port::{Link, PortFault};

/// Calls of which these are refused.
pub fn plan_of(alloc: Global, refused: Refused) -> Result<FailAt, AllocError>
    ensures { IfOk result (λ plan. plan.faults ≡ 0) }
{
    Ok(FailAt::with_lack([refused.fails].to_vec(alloc)?, refused.lacks))
}

/// A link in memory whose peer sends these bytes and ends; a receive takes at most so many, and calls are refused where the plan says so.
#[derive(Drop)]
pub struct PieceLink {
    inner: ScriptedLink<FailAt>,
    piece: usize,
    sends: u64,
    receives: u64,
    ghost at_least_one: { 1 ≤ piece },
}

impl PieceLink {
    /// A link over which nothing has passed.
    pub fn new(alloc: Global, script: Vec<u8>, plan: FailAt, piece: usize) -> Self
        requires some { 1 ≤ piece }
        requires unfailed { plan.faults ≡ 0 }
        ensures fresh { IsFreshLink (⟦<PieceLink as Link>⟧.state result) }
        ensures is_open { (⟦<PieceLink as Link>⟧.state result).is_open ≡ true }
    {
        PieceLink {
            inner: ScriptedLink::new(alloc, script, plan),
            piece,
            sends: 0,
            receives: 0,
        }
    }

    /// How many sends there were.
    pub fn sends(&self) -> u64 {
        self.sends
    }

    /// How many receives there were.
    pub fn receives(&self) -> u64 {
        self.receives
    }
}

impl Link for PieceLink {
    ghost state = { λ l. ⟦<ScriptedLink<FailAt> as Link>⟧.state l.inner };

    fn faults(&self) -> u64 {
        self.inner.faults()
    }

    fn send(&mut self, alloc: Global, bytes: &[u8]) -> Result<(), PortFault> {
        self.sends = self.sends.saturating_add(1);
        self.inner.send(alloc, bytes)
    }

    fn receive(&mut self, alloc: Global, buffer: &mut [u8]) -> Result<usize, PortFault> {
        self.receives = self.receives.saturating_add(1);
        let most = buffer.len().min(self.piece);
        let (front, _) = buffer.split_at_mut(most);
        self.inner.receive(alloc, front)
    }

    fn end(&mut self) {
        self.inner.end();
    }
}
