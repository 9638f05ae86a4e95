// The calls that threads make.
ghost use Rattle.std.specs.Prelude.{◌≡◌, ◌≢◌, ◌≤◌, IfOk};
ghost use Rattle.lease_words.specs.Calls.{RisesFrom, known_of, mark_of, seen, words_id};
ghost use Rattle.lease_words.specs.Views.{after_draw};
ghost use Rattle.lease_store.specs.Ceilings.{NeverFails};
ghost use Rattle.lease_store.specs.Leases.{PassGoesOn, IsJournals, IsPassAt, Leased, Tried, Watched};
ghost use Rattle.lease_store.specs.Stops.{WasStored};
ghost use Rattle.zk_model.specs.declared.limits.TheConstants.{MAX_UNITS};

use crate::LeaseFault;
use crate::desk::Desk;
use crate::fault::TryFault;
use crate::name::LeaseName;
use crate::store::LeaseStore;
use lease_words::{Exhausted, Pass};
use std::sync::Wait;
use twin_journal::JournalFault;
use zk_model::Span;
use zk_port::Disk;

impl<B: Disk, N: LeaseName> LeaseStore<B, N> {
    /// Leases the next `count` units, 1 to 4,096. It draws. Where the ceiling that the pass knows is too low, it looks, and
    /// where that is too low still, has it raised, which waits for the lock and for the journal. Units that were drawn and
    /// are not leased are burnt.
    ///
    /// # Errors
    ///
    /// `Exhausted` where the units end above the total, or where the pass was refused so before. `Device` and `Broken`
    /// where the journal failed, now or before.
    pub fn lease<R: Wait>(&self, rt: &R, pass: &mut Pass, count: u32) -> Result<Span, LeaseFault>
        requires own { IsPassAt N.table N.total pass.old }
        requires count { (1 ≤ count) × (count ≤ MAX_UNITS) }
        ensures own { IsPassAt N.table N.total pass.new }
        ensures goes { PassGoesOn pass.old pass.new }
        ensures leased { Leased pass.old count result pass.new }
        ensures unlooked { IfOk result (λ span. span.end ≤ known_of pass.old
            → seen pass.new ≡ after_draw (seen pass.old) span.start count) }
        ensures rises { RisesFrom pass.old pass.new }
        ensures stored { IfOk result (λ span. WasStored B.state span.end) }
        ensures never { NeverFails B.state → IsJournals result → ⊥ }
    {
        let span = match self.words.draw(pass, count) {
            Ok(span) => span,
            Err(Exhausted { at, count, total }) => {
                return Err(LeaseFault::Exhausted { at, count, total });
            }
        };
        if pass.known() >= span.end {
            return Ok(span);
        }
        if self.words.look(pass) >= span.end {
            return Ok(span);
        }
        let receipt = self.words.receipt(pass);
        let (covered, word) = {
            let mut desk = self.desk.lock(rt);
            desk.learn(&self.words, receipt);
            let covered = desk.cover(&self.words, span.end);
            (covered, desk.tell(&self.words))
        };
        match covered {
            Ok(()) => {
                self.await_ceiling(rt, pass, span.end);
                Ok(span)
            }
            Err(JournalFault::Device) => {
                self.words.be_told(pass, word);
                self.await_mark(rt, pass);
                Err(LeaseFault::Device)
            }
            Err(_) => Err(LeaseFault::Broken {
                first: self.await_mark(rt, pass),
            }),
        }
    }

    /// Looks until the ceiling reaches this end.
    fn await_ceiling<R: Wait>(&self, rt: &R, pass: &mut Pass, end: u64)
        requires { IsPassAt N.table N.total pass.old }
        ensures watched { Watched pass.old pass.new }
        ensures reached { end ≤ known_of pass.new }
        ensures stored { WasStored B.state end }
    {
        for _ in rt.forever() {
            if self.words.look(pass) >= end {
                return;
            }
        }
        unreachable!()
    }

    /// Looks until there is a mark.
    fn await_mark<R: Wait>(&self, rt: &R, pass: &mut Pass) -> u64
        requires { IsPassAt N.table N.total pass.old }
        ensures watched { Watched pass.old pass.new }
        ensures known { known_of pass.new ≡ known_of pass.old }
        ensures mark { mark_of pass.new ≡ result }
        ensures nonzero { result ≢ 0 }
    {
        for _ in rt.forever() {
            let mark = self.words.marked(pass);
            if mark != 0 {
                return mark;
            }
        }
        unreachable!()
    }

    /// Leases the next `count` units, 1 to 4,096, where the ceiling that is shown reaches their end. Units that were drawn
    /// and are not leased are burnt.
    ///
    /// # Errors
    ///
    /// `Exhausted` where the units end above the total, or where the pass was refused so before. `NeedsRoom` exactly where
    /// they end above the ceiling seen.
    pub fn try_lease(&self, pass: &mut Pass, count: u32) -> Result<Span, TryFault>
        requires own { IsPassAt N.table N.total pass.old }
        requires count { (1 ≤ count) × (count ≤ MAX_UNITS) }
        ensures own { IsPassAt N.table N.total pass.new }
        ensures goes { PassGoesOn pass.old pass.new }
        ensures tried { Tried pass.old count result pass.new }
        ensures stored { IfOk result (λ span. WasStored B.state span.end) }
    {
        let span = match self.words.draw(pass, count) {
            Ok(span) => span,
            Err(Exhausted { at, count, total }) => {
                return Err(TryFault::Exhausted { at, count, total });
            }
        };
        let known = self.words.look(pass);
        if known < span.end {
            return Err(TryFault::NeedsRoom {
                end: span.end,
                known,
            });
        }
        Ok(span)
    }
}
