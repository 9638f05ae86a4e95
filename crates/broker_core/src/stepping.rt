// Events one after another.
ghost use Rattle.std.specs.Prelude.{◌≡◌, IfOk, OnErr};
ghost use Rattle.broker_core.specs.Messages.{block_at, out_at};
ghost use Rattle.broker_core.specs.Safe.{IsCutOff, IsTaken};
ghost use Rattle.broker_core.specs.Worlds.{want_to};

use crate::brokering::{lease_some, restart, serve};
use crate::event::BrokerEvent;
use crate::message::{Message, Node};
use crate::noding::{FIRST, cut_short, deliver};
use crate::world::World;
use std::alloc::AllocError;
use zk_model::{Block, MAX_UNITS, Out, Span, Want};

impl World {
    /// A node sends its Want.
    fn ask(&mut self, node: u32, n: u32) -> Result<bool, AllocError>
        ensures taken { IfOk result (λ b. IsTaken self.old (BrokerEvent.Ask node n) b self.new) }
        ensures refused { OnErr result (self.new ≡ self.old) }
    {
        let Some(asker) = self.nodes.get(node as usize) else {
            return Ok(false);
        };
        if n < 1 || u64::from(n) > MAX_UNITS {
            return Ok(false);
        }
        let number = asker.number;
        self.sent.push(Message::Want(Want {
            node,
            number,
            count: n,
        }))?;
        Ok(true)
    }

    /// A node crashes. Its journal stays.
    fn crash_node(&mut self, node: u32) -> bool
        ensures { IsTaken self.old (BrokerEvent.NodeCrash node) result self.new }
    {
        if node as usize >= self.nodes.len() {
            return false;
        }
        self.nodes[node as usize] = FIRST;
        true
    }

    /// A node draws units of its block.
    fn spend(&mut self, node: u32, n: u32) -> Result<bool, AllocError>
        ensures taken { IfOk result (λ b. IsTaken self.old (BrokerEvent.Spend node n) b self.new) }
        ensures refused { OnErr result (self.new ≡ self.old) }
    {
        let Some(spender) = self.nodes.get(node as usize) else {
            return Ok(false);
        };
        if n < 1 || u64::from(n) > MAX_UNITS {
            return Ok(false);
        }
        let number = spender.number;
        let Some(block) = spender.block else {
            return Ok(false);
        };
        if u64::from(n) > block.end.saturating_sub(block.start) {
            return Ok(false);
        }
        let end = block.start + u64::from(n);
        self.spent.push(Span {
            start: block.start,
            end,
        })?;
        self.nodes[node as usize] = Node {
            number,
            block: Some(Span {
                start: end,
                end: block.end,
            }),
        };
        Ok(true)
    }

    /// A Want comes: all steps of its lease, and the answer.
    fn to_broker(&mut self, i: usize) -> Result<bool, AllocError>
        ensures taken { IfOk result (λ b. IsTaken self.old (BrokerEvent.ToBroker i) b self.new) }
        ensures refused { OnErr result (IsCutOff self.old (BrokerEvent.ToBroker i) self.new) }
    {
        let Some(want) = want_to(&self.sent, self.nodes.len(), i) else {
            return Ok(false);
        };
        serve(
            self.alloc,
            &mut self.lease,
            &mut self.core,
            &mut self.sent,
            want,
        )?;
        Ok(true)
    }

    /// A Want comes, and its lease is refused by the journal after so many of its steps.
    fn fail_broker(&mut self, i: usize, steps: usize) -> Result<bool, AllocError>
        ensures taken { IfOk result (λ b. IsTaken self.old (BrokerEvent.BrokerFail i steps) b self.new) }
        ensures refused { OnErr result (IsCutOff self.old (BrokerEvent.BrokerFail i steps) self.new) }
    {
        let Some(want) = want_to(&self.sent, self.nodes.len(), i) else {
            return Ok(false);
        };
        lease_some(self.alloc, &mut self.lease, &self.core, want, steps)
    }

    /// The broker crashes, and starts anew.
    fn crash_broker(&mut self, body: [u8; 16], gate: u8) -> Result<bool, AllocError>
        ensures taken { IfOk result (λ b. IsTaken self.old (BrokerEvent.BrokerCrash body gate) b self.new) }
        ensures refused { OnErr result (self.new ≡ self.old) }
    {
        restart(&mut self.lease, &mut self.core, gate)?;
        Ok(true)
    }

    /// A Want comes, and the broker crashes after so many steps of its lease, and starts anew.
    fn cut_broker(
        &mut self,
        i: usize,
        steps: usize,
        body: [u8; 16],
        gate: u8,
    ) -> Result<bool, AllocError>
        ensures taken { IfOk result (λ b.
            IsTaken self.old (BrokerEvent.BrokerCut i steps body gate) b self.new) }
        ensures refused { OnErr result
            (IsCutOff self.old (BrokerEvent.BrokerCut i steps body gate) self.new) }
    {
        if !self.fail_broker(i, steps)? {
            return Ok(false);
        }
        self.crash_broker(body, gate)
    }

    /// A Block or an Out comes to its node.
    fn to_node(&mut self, i: usize) -> Result<bool, AllocError>
        ensures taken { IfOk result (λ b. IsTaken self.old (BrokerEvent.ToNode i) b self.new) }
        ensures refused { OnErr result (self.new ≡ self.old) }
    {
        match block_at(&self.sent, i) {
            Some(block) => deliver(self.lease.total(), &mut self.nodes, &mut self.claims, block),
            None => Ok(match out_at(&self.sent, i) {
                Some(out) => (out.node as usize) < self.nodes.len(),
                None => false,
            }),
        }
    }

    /// A Block comes, and the node crashes within its claim, which its journal keeps or not.
    fn cut_node(&mut self, i: usize, kept: bool) -> Result<bool, AllocError>
        ensures taken { IfOk result (λ b. IsTaken self.old (BrokerEvent.NodeCut i kept) b self.new) }
        ensures refused { OnErr result (self.new ≡ self.old) }
    {
        let Some(block) = block_at(&self.sent, i) else {
            return Ok(false);
        };
        cut_short(
            self.lease.total(),
            &mut self.nodes,
            &mut self.claims,
            block,
            kept,
            true,
        )
    }

    /// A Block comes, and its claim is refused for memory, slots or the disk; the journal keeps it or not.
    fn fail_node(&mut self, i: usize, kept: bool) -> Result<bool, AllocError>
        ensures taken { IfOk result (λ b. IsTaken self.old (BrokerEvent.NodeFail i kept) b self.new) }
        ensures refused { OnErr result (self.new ≡ self.old) }
    {
        let Some(block) = block_at(&self.sent, i) else {
            return Ok(false);
        };
        cut_short(
            self.lease.total(),
            &mut self.nodes,
            &mut self.claims,
            block,
            kept,
            false,
        )
    }

    /// Takes an event, and says whether it was possible. Where it was not, the world is as it was.
    ///
    /// # Errors
    ///
    /// Only where memory runs out. At most the first steps of the event's lease then took place.
    pub fn step(&mut self, event: BrokerEvent) -> Result<bool, AllocError>
        ensures taken { IfOk result (λ b. IsTaken self.old event b self.new) }
        ensures refused { OnErr result (IsCutOff self.old event self.new) }
    {
        match event {
            BrokerEvent::Ask { node, n } => self.ask(node, n),
            BrokerEvent::ToBroker { i } => self.to_broker(i),
            BrokerEvent::ToNode { i } => self.to_node(i),
            BrokerEvent::Spend { node, n } => self.spend(node, n),
            BrokerEvent::NodeCrash { node } => Ok(self.crash_node(node)),
            BrokerEvent::NodeCut { i, kept } => self.cut_node(i, kept),
            BrokerEvent::NodeFail { i, kept } => self.fail_node(i, kept),
            BrokerEvent::BrokerCrash { body, gate } => self.crash_broker(body, gate),
            BrokerEvent::BrokerCut {
                i,
                steps,
                body,
                gate,
            } => self.cut_broker(i, steps, body, gate),
            BrokerEvent::BrokerFail { i, steps } => self.fail_broker(i, steps),
        }
    }
}

/// The Block at a place of all that were sent.
fn block_at(sent: &[Message], i: usize) -> Option<Block>
    ensures { result ≡ block_at sent.now i }
{
    match sent.get(i) {
        Some(Message::Block(block)) => Some(*block),
        _ => None,
    }
}

/// The Out at a place of all that were sent.
fn out_at(sent: &[Message], i: usize) -> Option<Out>
    ensures { result ≡ out_at sent.now i }
{
    match sent.get(i) {
        Some(Message::Out(out)) => Some(*out),
        _ => None,
    }
}

/// The Want at a place of all that were sent, where its node is one of so many.
fn want_to(sent: &[Message], nodes: usize, i: usize) -> Option<Want>
    ensures { result ≡ want_to sent.now nodes i }
{
    match sent.get(i) {
        Some(Message::Want(want)) if (want.node as usize) < nodes => Some(*want),
        _ => None,
    }
}
