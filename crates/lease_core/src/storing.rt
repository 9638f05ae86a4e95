// Events that store a ceiling and show it.
ghost use Rattle.std.specs.Prelude.{◌≡◌, ◌^◌, ◌≤◌, OnOk, IfOk, OnErr};
ghost use Rattle.lease_core.specs.Machine.{ceiling_for, with_slot};
ghost use Rattle.lease_core.specs.Kept.{IsTaken, IsCrash};

use crate::event::{Event, Moment};
use crate::lists::{has, last_drawn};
use crate::state::State;
use std::alloc::AllocError;

/// The ceiling for a span that ends here.
fn ceiling_for(total: u64, end: u64) -> u64
    requires { end ≤ 2 ^ 41 }
    ensures { result ≡ ceiling_for total end }
{
    total.min(end.div_ceil(16) * 16)
}

impl State {
    /// The journal's put goes on by a moment.
    pub(crate) fn put(&mut self, moment: Moment) -> Result<bool, AllocError>
        ensures taken { IfOk result (λ b. IsTaken self.old (Event.Put moment) b self.new) }
        ensures refused { OnErr result (self.new ≡ self.old) }
    {
        match moment {
            Moment::Body { pass } => Ok(self.put_body(pass)),
            Moment::BodySync => {
                if !self.up || self.stage != 1 {
                    return Ok(false);
                }
                self.stage = 2;
                Ok(true)
            }
            Moment::Gate => {
                if !self.up || self.stage != 2 {
                    return Ok(false);
                }
                self.stage = 3;
                Ok(true)
            }
            Moment::GateSync => {
                if !self.up || self.stage != 3 {
                    return Ok(false);
                }
                self.add_slot()?;
                self.stage = 4;
                Ok(true)
            }
        }
    }

    /// A put begins.
    fn put_body(&mut self, pass: u32) -> bool
        ensures { IsTaken self.old (Event.Put (Moment.Body pass)) result self.new }
    {
        if !self.up || pass >= self.passes || self.stage != 0 {
            return false;
        }
        let Some(last) = last_drawn(pass, &self.drawn) else {
            return false;
        };
        if has(&self.spent, last) || self.shown >= last.end || last.end > self.total {
            return false;
        }
        self.stage = 1;
        self.ceiling = ceiling_for(self.total, last.end);
        true
    }

    /// The put's ceiling becomes the last one of the journal.
    fn add_slot(&mut self) -> Result<(), AllocError>
        ensures added { OnOk result (self.new ≡ with_slot self.old) }
        ensures refused { OnErr result (self.new ≡ self.old) }
    {
        self.slots.reserve(1)?;
        self.slots.push_reserved(self.ceiling);
        Ok(())
    }

    /// The ceiling of the put is shown.
    pub(crate) fn raise(&mut self) -> bool
        ensures { IsTaken self.old Event.Raise result self.new }
    {
        if !self.up || self.stage != 4 {
            return false;
        }
        self.stage = 0;
        self.shown = self.ceiling;
        true
    }

    /// The store stops. The slot of a put whose gate is written and not synced counts where the gate is open.
    pub fn crash(&mut self, gate: u8) -> Result<bool, AllocError>
        ensures taken { IfOk result (λ b. IsCrash self.old gate b self.new) }
        ensures refused { OnErr result (self.new ≡ self.old) }
    {
        if !self.up {
            return Ok(false);
        }
        if self.stage == 3 && gate == 0x5A {
            self.add_slot()?;
        }
        self.up = false;
        self.stage = 0;
        Ok(true)
    }
}
