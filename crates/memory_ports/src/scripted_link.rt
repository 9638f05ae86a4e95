// A link in memory whose peer sends what was stated at first.
ghost use Rattle.std.specs.Prelude.{◌≤◌, ◌≡◌, ◌+◌, ◌-◌, ◌/◌, ◌++◌, ◌<◌, ◌↔◌, ℕ, true, false, length, vec_len, min, take, drop, [], IfOk, OnOk, OnErr, IsTrue};
ghost use Rattle.zk_port.specs.Counts.{HasCause, counted, is_failed};
ghost use Rattle.zk_port.specs.Logs.{ended_after, bytes_of};
ghost use Rattle.zk_port.specs.Links.{LinkState};
ghost use Rattle.zk_port.specs.declared.way.Way.TheVariants.{Sent, Received};
ghost use Rattle.memory_ports.specs.Plans.{UsesCall};

use crate::plan::FaultPlan;
use std::alloc::{AllocError, Global};
use zk_port::{Link, PortFault, Way};

/// A link in memory whose peer sends these bytes and ends, whatever is sent to it. A receive takes as many as
/// there are and fit. Exactly the sends and receives that the plan names fail, and such a send sends at most
/// its first half. One that by the plan finds no memory sends or takes nothing.
#[derive(Drop)]
pub struct ScriptedLink<P> {
    log: Vec<(Way, u8)>,
    script: Vec<u8>,
    place: usize,
    ended: bool,
    is_open: bool,
    sends: u64,
    refused_sends: u64,
    receives: u64,
    plan: P,
    ghost within: { place ≤ vec_len script },
    ghost nothing_behind: { ended ≡ true → place ≡ vec_len script },
}

/// The bytes as a log has them.
fn entries_of(alloc: Global, way: Way, bytes: &[u8]) -> Result<Vec<(Way, u8)>, AllocError>
    ensures { IfOk result (λ entries. entries.items ≡ bytes_of way bytes.now) }
{
    bytes.iter().map(|b| (way, *b)).collect(alloc)
}

/// Adds the bytes to the log; without memory for them nothing changes.
fn note_bytes(
    alloc: Global,
    log: &mut Vec<(Way, u8)>,
    way: Way,
    bytes: &[u8],
) -> Result<(), AllocError>
    ensures noted { OnOk result (log.new.items ≡ log.old.items ++ bytes_of way bytes.now) }
    ensures refused { OnErr result (log.new.items ≡ log.old.items) }
{
    let entries = entries_of(alloc, way, bytes)?;
    log.extend_from_slice(&entries)?;
    Ok(())
}

/// Notes the first half, if there is memory for it.
fn note_half(alloc: Global, log: &mut Vec<(Way, u8)>, way: Way, bytes: &[u8])
    ensures part { (n : ℕ) × (log.new.items ≡ log.old.items ++ bytes_of way (take n bytes.now)) }
    ensures half { length log.new.items ≤ length log.old.items + length bytes.now / 2 }
{
    let half = bytes.len() / 2;
    let _ = note_bytes(alloc, log, way, &bytes[..half]);
}

/// Copies as many bytes as fit from the place on to the front of the buffer, and says how many.
fn copy_front(from: &[u8], buffer: &mut [u8]) -> usize
    ensures count { result ≡ min (length buffer.old) (length from.now) }
    ensures front { take result buffer.new ≡ take result from.now }
    ensures rest { drop result buffer.new ≡ drop result buffer.old }
{
    let count = buffer.len().min(from.len());
    let (front, _) = buffer.split_at_mut(count);
    front.copy_from_slice(&from[..count]);
    count
}

impl<P: FaultPlan> ScriptedLink<P> {
    /// A link over which nothing has passed.
    pub fn new(alloc: Global, script: Vec<u8>, plan: P) -> Self
        ensures state { ⟦<ScriptedLink<P> as Link>⟧.state result ≡ record {
          log = Some [];
          to_come = Some script.items;
          ended = Some false;
          is_open = true;
          sends = 0;
          refused_sends = 0;
          receives = 0;
          faults = P.count plan;
        } }
        ensures plan { result.plan ≡ plan }
    {
        ScriptedLink {
            log: Vec::new(alloc),
            script,
            place: 0,
            ended: false,
            is_open: true,
            sends: 0,
            refused_sends: 0,
            receives: 0,
            plan,
        }
    }

    /// Logs these bytes as sent, or by the plan a first half of them, or none.
    fn pass(&mut self, alloc: Global, bytes: &[u8]) -> Result<(), PortFault>
        ensures sent { OnOk result (self.new.log.items ≡ self.old.log.items ++ bytes_of Sent bytes.now) }
        ensures part { OnErr result ((n : ℕ) ×
            (self.new.log.items ≡ self.old.log.items ++ bytes_of Sent (take n bytes.now))) }
        ensures half { OnErr result
            (length self.new.log.items ≤ length self.old.log.items + length bytes.now / 2) }
        ensures rest { self.new ≡ record self.old { log = self.new.log; plan = self.new.plan } }
        ensures fails { is_failed result ≡ P.coming self.old.plan 0 }
        ensures plan { UsesCall P.coming P.count (is_failed result) self.old.plan self.new.plan }
    {
        if self.plan.fails() {
            note_half(alloc, &mut self.log, Way::Sent, bytes);
            return Err(PortFault::Failed);
        }
        if self.plan.lacks() {
            return Err(PortFault::NoMemory);
        }
        note_bytes(alloc, &mut self.log, Way::Sent, bytes)?;
        Ok(())
    }
}

impl<P: FaultPlan> Link for ScriptedLink<P> {
    ghost use Rattle.std.specs.Prelude.{Some, drop};

    ghost state = { λ l. record {
      log = Some l.log.items;
      to_come = Some (drop l.place l.script.items);
      ended = Some l.ended;
      is_open = l.is_open;
      sends = l.sends;
      refused_sends = l.refused_sends;
      receives = l.receives;
      faults = P.count l.plan;
    } };

    fn faults(&self) -> u64 {
        self.plan.faults()
    }

    fn send(&mut self, alloc: Global, bytes: &[u8]) -> Result<(), PortFault>
        requires { IsTrue self.old.is_open }
        ensures sent { OnOk result (self.new.log.items ≡ self.old.log.items ++ bytes_of Sent bytes.now) }
        ensures part { OnErr result ((n : ℕ) ×
            (self.new.log.items ≡ self.old.log.items ++ bytes_of Sent (take n bytes.now))) }
        ensures half { OnErr result
            (length self.new.log.items ≤ length self.old.log.items + length bytes.now / 2) }
        ensures rest { OnOk result (self.new ≡ record self.old {
          log = self.new.log;
          sends = counted true self.old.sends;
          plan = self.new.plan;
        }) }
        ensures rest_refused { OnErr result (self.new ≡ record self.old {
          log = self.new.log;
          sends = counted true self.old.sends;
          refused_sends = counted true self.old.refused_sends;
          plan = self.new.plan;
        }) }
        ensures fails { is_failed result ≡ P.coming self.old.plan 0 }
        ensures plan { UsesCall P.coming P.count (is_failed result) self.old.plan self.new.plan }
    {
        self.sends = self.sends.saturating_add(1);
        match self.pass(alloc, bytes) {
            Ok(()) => Ok(()),
            Err(fault) => {
                self.refused_sends = self.refused_sends.saturating_add(1);
                Err(fault)
            }
        }
    }

    #[tactic(auto, using(crate::proofs::Scripts::no_piece))]
    fn receive(&mut self, alloc: Global, buffer: &mut [u8]) -> Result<usize, PortFault>
        requires { IsTrue self.old.is_open }
        ensures count_taken { IfOk result (λ n. n ≡ min
            (length buffer.old) (vec_len self.old.script - self.old.place)) }
        ensures next { IfOk result (λ n. drop self.old.place self.old.script.items
            ≡ take n buffer.new ++ drop self.new.place self.new.script.items) }
        ensures none { IfOk result (λ n. 0 < length buffer.old
            → (n ≡ 0) ↔ (drop self.old.place self.old.script.items ≡ [])) }
        ensures stays_ended { IfOk result (λ n. IsTrue self.old.ended → n ≡ 0) }
        ensures taken { IfOk result (λ n. self.new.log.items
            ≡ self.old.log.items ++ bytes_of Received (take n buffer.new)) }
        ensures rest { IfOk result (λ n. drop n buffer.new ≡ drop n buffer.old) }
        ensures ended { IfOk result (λ n.
            self.new.ended ≡ ended_after (length buffer.old) n self.old.ended) }
        ensures script { self.new.script ≡ self.old.script }
        ensures is_open { self.new.is_open ≡ self.old.is_open }
        ensures sends { self.new.sends ≡ self.old.sends }
        ensures refused_sends { self.new.refused_sends ≡ self.old.refused_sends }
        ensures receives { self.new.receives ≡ counted true self.old.receives }
        ensures refused { OnErr result (self.new.log.items ≡ self.old.log.items) }
        ensures kept { OnErr result (self.new
            ≡ record self.old { log = self.new.log; receives = self.new.receives; plan = self.new.plan }) }
        ensures fails { is_failed result ≡ P.coming self.old.plan 0 }
        ensures plan { UsesCall P.coming P.count (is_failed result) self.old.plan self.new.plan }
    {
        self.receives = self.receives.saturating_add(1);
        if self.plan.fails() {
            return Err(PortFault::Failed);
        }
        if self.plan.lacks() {
            return Err(PortFault::NoMemory);
        }
        let rest = &self.script[self.place..];
        let count = buffer.len().min(rest.len());
        note_bytes(alloc, &mut self.log, Way::Received, &rest[..count])?;
        let taken = copy_front(rest, buffer);
        self.place += taken;
        if !buffer.is_empty() {
            self.ended = taken == 0;
        }
        Ok(taken)
    }

    fn end(&mut self)
        requires { IsTrue self.old.is_open }
        ensures { self.new ≡ record self.old { is_open = false } }
    {
        self.is_open = false;
    }
}
