// Output kept in memory.
ghost use Rattle.std.specs.Prelude.{◌≡◌, ◌≤◌, ◌+◌, ◌/◌, ◌++◌, ℕ, [], length, OnOk, OnErr};
ghost use Rattle.zk_port.specs.Counts.{HasCause, is_failed, counted};
ghost use Rattle.zk_port.specs.Logs.{appended, AppendsPart};

use crate::plan::FaultPlan;
use std::alloc::Global;
use zk_port::{PortFault, Sink};

/// Output kept in memory. Exactly the calls that the plan names fail, and write at most their first half. A call that by the plan finds
/// no memory writes nothing.
#[derive(Drop)]
pub struct MemorySink<P> {
    bytes: Vec<u8>,
    plan: P,
}

impl<P: FaultPlan> MemorySink<P> {
    /// A sink that nothing has been written to.
    pub fn new(alloc: Global, plan: P) -> Self
        ensures state { ⟦<MemorySink<P> as Sink>⟧.state result
            ≡ record { written = Some []; faults = P.count plan } }
        ensures plan { result.plan ≡ plan }
    {
        MemorySink {
            bytes: Vec::new(alloc),
            plan,
        }
    }

    /// All bytes that were written, in order.
    pub fn bytes(&self) -> &[u8]
        ensures { (⟦<MemorySink<P> as Sink>⟧.state self.now).written ≡ Some result.now }
    {
        &self.bytes
    }
}

impl<P: FaultPlan> Sink for MemorySink<P> {
    ghost use Rattle.std.specs.Prelude.{Some};

    ghost state = { λ s. record { written = Some s.bytes.items; faults = P.count s.plan } };

    fn faults(&self) -> u64 {
        self.plan.faults()
    }

    fn put(&mut self, _alloc: Global, bytes: &[u8]) -> Result<(), PortFault>
        ensures written { OnOk result (Some self.new.bytes.items
            ≡ appended bytes.now (Some self.old.bytes.items)) }
        ensures refused { OnErr result (AppendsPart bytes.now
            (Some self.old.bytes.items) (Some self.new.bytes.items)) }
        ensures half { OnErr result
            (length self.new.bytes.items ≤ length self.old.bytes.items + length bytes.now / 2) }
        ensures cause { HasCause (P.count self.old.plan) (P.count self.new.plan) result }
        ensures fails { is_failed result ≡ P.coming self.old.plan 0 }
        ensures onward { (n : ℕ) → P.coming self.new.plan n ≡ P.coming self.old.plan (n + 1) }
        ensures count { P.count self.new.plan ≡ counted (is_failed result) (P.count self.old.plan) }
    {
        if self.plan.fails() {
            let half = bytes.len() / 2;
            let _ = self.bytes.extend_from_slice(&bytes[..half]);
            return Err(PortFault::Failed);
        }
        if self.plan.lacks() {
            return Err(PortFault::NoMemory);
        }
        self.bytes.extend_from_slice(bytes)?;
        Ok(())
    }
}
