// The state of the lease machine.
ghost use Rattle.std.specs.Prelude.{◌≡◌, ◌^◌, ◌≤◌, false, IfOk, OnErr};
ghost use Rattle.lease_core.specs.Machine.{machine_at_first, durable};
ghost use Rattle.lease_core.specs.Spans.{EndBy};
ghost use Rattle.lease_core.specs.Kept.{IsReached, IsSafe, IsTaken};
ghost use Rattle.lease_core.specs.Consistent.{IsConsistent};
ghost use Rattle.zk_model.specs.declared.limits.TheConstants.{MAX_PASSES, MAX_STORE_UNITS};

use crate::event::{Drawn, Event};
use std::alloc::{AllocError, Global};
use std::marker::Model;
use zk_model::Span;

/// A state of the lease machine. Contracts see of it the machine (`Machine`), which has the same fields.
#[derive(Debug, Drop)]
pub struct State {
    pub(crate) total: u64,
    pub(crate) passes: u32,
    pub(crate) slots: Vec<u64>,
    pub(crate) up: bool,
    pub(crate) base: u64,
    pub(crate) next: u64,
    pub(crate) shown: u64,
    pub(crate) stage: u8,
    pub(crate) ceiling: u64,
    pub(crate) drawn: Vec<Drawn>,
    pub(crate) known: Vec<u64>,
    pub(crate) spent: Vec<Span>,
    pub(crate) claims: Vec<Span>,
}

impl Model for State {
    ghost use Rattle.lease_core.specs.Machine as model;
    ghost use Rattle.lease_core.specs.Limits.{IsLimited, IsBounded};

    ghost Value = { model.Machine };

    ghost view = { λ s. record {
      total = s.total;
      passes = s.passes;
      slots = s.slots.items;
      up = s.up;
      base = s.base;
      next = s.next;
      shown = s.shown;
      stage = s.stage;
      ceiling = s.ceiling;
      drawn = s.drawn.items;
      known = s.known.items;
      spent = s.spent.items;
      claims = s.claims.items;
    } };

    ghost invariant = { λ s. IsBounded s.total s.passes s.base s.next s.drawn.items
        × IsLimited s.total s.passes s.ceiling s.shown s.slots.items s.known.items };
}

impl State {
    /// The state before the first era: nothing is stored, spent or claimed.
    ///
    /// # Errors
    ///
    /// Only where memory runs out.
    pub fn new(alloc: Global, total: u64, passes: u32) -> Result<State, AllocError>
        requires total { total ≤ MAX_STORE_UNITS }
        requires passes { passes ≤ MAX_PASSES }
        ensures first { IfOk result (λ s. s ≡ machine_at_first total passes) }
        ensures reached { IfOk result (λ s. IsReached s) }
    {
        let known = Vec::from_elem(alloc, 0, passes as usize)?;
        Ok(State {
            total,
            passes,
            slots: Vec::new(alloc),
            up: false,
            base: 0,
            next: 0,
            shown: 0,
            stage: 0,
            ceiling: 0,
            drawn: Vec::new(alloc),
            known,
            spent: Vec::new(alloc),
            claims: Vec::new(alloc),
        })
    }

    /// Takes an event, and says whether it was possible. Where it was not, the state is as it was.
    ///
    /// # Errors
    ///
    /// Only where memory runs out; the state is then as it was.
    pub fn step(&mut self, event: Event) -> Result<bool, AllocError>
        ensures taken { IfOk result (λ b. IsTaken self.old event b self.new) }
        ensures refused { OnErr result (self.new ≡ self.old) }
        ensures safe { IsReached self.old → IsReached self.new × IsSafe self.new }
        ensures consistent { IsReached self.old → IsConsistent self.new }
        ensures stays_durable { IsReached self.old → EndBy (durable self.new) self.old.spent }
    {
        self.take(event)
    }

    fn take(&mut self, event: Event) -> Result<bool, AllocError>
        ensures taken { IfOk result (λ b. IsTaken self.old event b self.new) }
        ensures refused { OnErr result (self.new ≡ self.old) }
    {
        match event {
            Event::Begin => Ok(self.begin()),
            Event::Draw { pass, n } => self.draw(pass, n),
            Event::Look { pass } => Ok(self.look(pass)),
            Event::Put { moment } => self.put(moment),
            Event::Raise => Ok(self.raise()),
            Event::Spend { pass, span } => self.spend(pass, span),
            Event::Claim { span } => self.claim(span),
            Event::Crash { body: _, gate } => self.crash(gate),
        }
    }
}
