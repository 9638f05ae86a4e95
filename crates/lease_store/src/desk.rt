// What stands behind the lock.
ghost use Rattle.std.specs.Prelude.{◌≡◌, ◌<◌, ◌≤◌, max, ℕ, List, Some, Err, is_ok, true, IfErr, OnOk, OnErr};
ghost use Rattle.lease_core.specs.Machine.{ceiling_for};
ghost use Rattle.lease_journal.specs.declared.fault.JournalFault.TheVariants as fault;
ghost use Rattle.lease_words.specs.Calls.{ceiling_of, drawn_on, known_drawn_of, made_of, met_on, own_mark_of, own_met_of};
ghost use Rattle.lease_words.specs.Calls.{words_id, IsReceiptOf, IsWordOf};
ghost use Rattle.zk_port.specs.Disks.{LeavesOnly};
ghost use Rattle.lease_store.specs.Ceilings.{AreFound, FindsCeiling, NeverFails};
ghost use Rattle.lease_store.specs.Desks.{CoverCause, IsLeaseDesk};
ghost use Rattle.lease_store.specs.Raising.{after_ceiling, are_all_used};
ghost use Rattle.lease_store.specs.States.{IsDeskOf};
ghost use Rattle.zk_model.specs.declared.limits.TheConstants.{MAX_STORE_UNITS};

use crate::ceilings::CeilingJournal;
use crate::name::LeaseName;
use lease_words::{FaultWord, JournalSeat, Receipt, Words};
use std::marker::{Model, PhantomData};
use twin_journal::JournalFault;
use zk_port::Disk;

/// The seat that raises the ceiling, with the journal, which it owns. The ceiling is that of the active area's slots in use, and every
/// image of the disk is a sound journal that recovers it or a higher one. Contracts see of it the journal, the ceiling,
/// the mark, how far it knows that units were drawn, and the faults that it gave no word of (`DeskState`).
#[derive(Drop)]
pub struct Desk<B: Disk, N: LeaseName> {
    seat: JournalSeat<CeilingJournal<B>>,
    name: PhantomData<N>,
}

impl<B: Disk, N: LeaseName> Model for Desk<B, N> {
    ghost use Rattle.lease_words.specs.Calls.{ceiling_of, known_drawn_of, own_mark_of, own_met_of};
    ghost use Rattle.lease_store.specs.States as model;

    ghost Value = { model.DeskState B };

    ghost coded = { model.desk_code B.code };

    ghost view = { λ d. record {
      journal = d.seat.keeper.journal;
      ceiling = ceiling_of d.seat;
      mark = own_mark_of d.seat;
      drawn = known_drawn_of d.seat;
      met = own_met_of d.seat;
    } };

    ghost invariant = { λ d. model.IsDeskOf B.state N.table N.total N.passes N.base N.id N.start
        d.seat.seat.table_id d.seat.keeper.journal d.seat.keeper.id d.seat.keeper.total d.seat.seat.me.0 };
}

/// The ceiling for a span that ends here.
fn ceiling_for(total: u64, end: u64) -> u64
    requires { end ≤ MAX_STORE_UNITS }
    ensures { result ≡ ceiling_for total end }
{
    total.min(end.div_ceil(16) * 16)
}

impl<B: Disk, N: LeaseName> Desk<B, N> {
    /// The desk of the store that has this name.
    pub fn new(seat: JournalSeat<CeilingJournal<B>>) -> Self
        requires { IsDeskOf B.state N.table N.total N.passes N.base N.id N.start
            seat.seat.table_id seat.keeper.journal seat.keeper.id seat.keeper.total seat.seat.me.0 }
        ensures journal { result.journal ≡ seat.keeper.journal }
        ensures ceiling { result.ceiling ≡ ceiling_of seat }
        ensures mark { result.mark ≡ own_mark_of seat }
        ensures drawn { result.drawn ≡ known_drawn_of seat }
        ensures met { result.met ≡ own_met_of seat }
    {
        Desk {
            seat,
            name: PhantomData,
        }
    }

    /// The seat, with the journal.
    pub fn into_seat(self) -> JournalSeat<CeilingJournal<B>>
        ensures kept { IsLeaseDesk B.state N.start N.id N.total N.base result.keeper.journal result.seat.me.0 }
        ensures own { result.seat.table_id ≡ N.table }
        ensures made { made_of result ≡ N.passes }
    {
        let Desk { seat, .. } = self;
        seat
    }

    /// Learns from a pass's receipt how far units were drawn.
    pub fn learn(&mut self, words: &Words<CeilingJournal<B>>, receipt: Receipt)
        requires own { words_id words.now ≡ N.table }
        requires receipt { IsReceiptOf words.now receipt }
        ensures { self.new ≡ record self.old { drawn = max self.old.drawn (drawn_on receipt) } }
    {
        words.learn(&mut self.seat, receipt);
    }

    /// A word of the fault that this desk met, and gave no word of yet.
    pub fn tell(&mut self, words: &Words<CeilingJournal<B>>) -> FaultWord
        requires { words_id words.now ≡ N.table }
        ensures desk { self.new ≡ record self.old { met = 0 } }
        ensures word { IsWordOf words.now result }
        ensures met { met_on result ≡ self.old.met }
    {
        words.tell(&mut self.seat)
    }

    /// Sees to it that the ceiling reaches this end, up to which units were drawn. Where it doesn't yet, it puts the end, rounded up to a multiple of 16
    /// and at most the total, into the journal, and then shows it. Where all slots of the active area are in use, it
    /// compacts the journal to this one ceiling in place of the put. It takes no memory.
    ///
    /// # Errors
    ///
    /// `Device` where the journal's put or compaction failed, which marks the journal's fault; `Broken` where one failed
    /// before. The ceiling is then as before. It is never `Full`.
    pub fn cover(&mut self, words: &Words<CeilingJournal<B>>, end: u64) -> Result<(), JournalFault>
        requires own { words_id words.now ≡ N.table }
        requires within { end ≤ N.total }
        requires drawn { end ≤ self.old.drawn }
        ensures unchanged { end ≤ self.old.ceiling → (is_ok result ≡ true) × (self.new ≡ self.old) }
        ensures raised { OnOk result (self.old.ceiling < end → self.new.ceiling ≡ ceiling_for N.total end) }
        ensures written { OnOk result (self.old.ceiling < end
            → self.new.journal.last ≡ (ceiling_for N.total end, 0)) }
        ensures journal { OnOk result (self.old.ceiling < end
            → self.new.journal ≡ after_ceiling (are_all_used self.old.journal) self.old.journal
            self.new.journal.disk (ceiling_for N.total end)) }
        ensures found { AreFound N.start (B.state self.new.journal.disk) N.id N.total self.new.ceiling }
        ensures reached { OnOk result (end ≤ self.new.ceiling) }
        ensures refused { OnErr result (self.new.ceiling ≡ self.old.ceiling) }
        ensures marked { OnErr result (self.new.mark ≡ self.new.journal.fault) }
        ensures met { result ≡ Err fault.Device → 0 < self.new.met }
        ensures cause { IfErr result (CoverCause self.old.journal.fault self.new.journal.fault
            (B.state self.old.journal.disk).faults (B.state self.new.journal.disk).faults) }
        ensures any_moment { (first : List ℕ) → N.start.content ≡ Some first
            → LeavesOnly (B.state self.old.journal.disk) (B.state self.new.journal.disk)
            (FindsCeiling N.id N.total self.old.ceiling first) }
        ensures never { OnErr result (NeverFails B.state → ⊥) }
    {
        if end <= self.seat.keeper().journal.last().0 {
            return Ok(());
        }
        let ceiling = ceiling_for(self.seat.keeper().total, end);
        match self.seat.store(ceiling) {
            Ok(()) => {
                words.raise(&mut self.seat, ceiling);
                Ok(())
            }
            Err(fault) => {
                if fault == JournalFault::Device {
                    let first = self.seat.keeper().journal.fault();
                    words.mark(&mut self.seat, first);
                }
                Err(fault)
            }
        }
    }
}
