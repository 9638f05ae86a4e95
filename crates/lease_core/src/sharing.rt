// Events that give units out.
ghost use Rattle.std.specs.Prelude.{◌≡◌, IfOk, OnErr};
ghost use Rattle.lease_core.specs.Kept.{IsTaken};

use crate::event::{Drawn, Event};
use crate::lists::{has, is_passed, last_drawn, last_of, meets_any};
use crate::state::State;
use std::alloc::AllocError;
use zk_model::{MAX_UNITS, Span};

impl State {
    /// An era begins at the durable ceiling.
    pub fn begin(&mut self) -> bool
        ensures { IsTaken self.old Event.Begin result self.new }
    {
        if self.up {
            return false;
        }
        let ceiling = last_of(&self.slots);
        self.up = true;
        self.base = ceiling;
        self.next = ceiling;
        self.shown = ceiling;
        self.stage = 0;
        self.drawn.clear();
        self.known.as_mut_slice().fill(ceiling);
        true
    }

    /// A pass draws the next `n` units.
    pub(crate) fn draw(&mut self, pass: u32, n: u32) -> Result<bool, AllocError>
        ensures taken { IfOk result (λ b. IsTaken self.old (Event.Draw pass n) b self.new) }
        ensures refused { OnErr result (self.new ≡ self.old) }
    {
        if !self.up || pass >= self.passes || n < 1 || u64::from(n) > MAX_UNITS {
            return Ok(false);
        }
        if is_passed(self.total, pass, &self.drawn) {
            return Ok(false);
        }
        let end = self.next + u64::from(n);
        self.drawn.push(Drawn {
            pass,
            span: Span {
                start: self.next,
                end,
            },
        })?;
        self.next = end;
        Ok(true)
    }

    /// A pass looks at the ceiling shown.
    pub(crate) fn look(&mut self, pass: u32) -> bool
        ensures { IsTaken self.old (Event.Look pass) result self.new }
    {
        if !self.up || pass >= self.passes {
            return false;
        }
        self.known[pass as usize] = self.shown;
        true
    }

    /// The last span that a pass drew is granted.
    pub(crate) fn spend(&mut self, pass: u32, span: Span) -> Result<bool, AllocError>
        ensures taken { IfOk result (λ b. IsTaken self.old (Event.Spend pass span) b self.new) }
        ensures refused { OnErr result (self.new ≡ self.old) }
    {
        if !self.up || pass >= self.passes {
            return Ok(false);
        }
        let Some(last) = last_drawn(pass, &self.drawn) else {
            return Ok(false);
        };
        if has(&self.spent, last) || last != span || span.end > self.shown {
            return Ok(false);
        }
        self.spent.push(span)?;
        Ok(true)
    }

    /// A span is claimed.
    pub(crate) fn claim(&mut self, span: Span) -> Result<bool, AllocError>
        ensures taken { IfOk result (λ b. IsTaken self.old (Event.Claim span) b self.new) }
        ensures refused { OnErr result (self.new ≡ self.old) }
    {
        if span.start >= span.end || span.end > self.total || meets_any(&self.claims, span) {
            return Ok(false);
        }
        self.claims.push(span)?;
        Ok(true)
    }
}
