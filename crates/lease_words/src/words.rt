// The calls that threads make.
ghost use Rattle.std.specs.Prelude.{◌≡◌, ◌<◌, ◌≤◌, ◌⊎◌, IfOk};
ghost use Rattle.lease_words.specs.Views.{after_look, after_marked, after_raise, after_mark};
ghost use Rattle.lease_words.specs.Calls.{seen, known_of, mark_of, journal_view, keeper_of, own_mark_of};
ghost use Rattle.lease_words.specs.Calls.{asked_by_seat, ceiling_of, limit_of};
ghost use Rattle.lease_words.specs.Calls.{IsPassOf, IsSeatOf, IsSame, Drew, RisesFrom};
ghost use Rattle.lease_words.specs.Stored.{IsStored, IsStoredAbove};
ghost use Rattle.zk_model.specs.declared.limits.TheConstants.{MAX_UNITS};

use crate::fault::Exhausted;
use crate::keeper::Keeper;
use crate::pass::{JournalSeat, Pass};
use crate::rule::{Draw, FindMark, Look, Raise, SetMark};
use crate::table::Words;
use zk_model::Span;

impl Pass {
    /// The ceiling that the pass saw last.
    pub fn known(&self) -> u64
        ensures { result ≡ known_of self.now }
    {
        self.known
    }
}

impl<K: Keeper> Words<K> {
    /// Draws the next `count` units, 1 to 4,096, by one atomic addition to word 0. The ceiling that the pass knows is stored.
    ///
    /// # Errors
    ///
    /// Exactly where the units end above the total, which burns them; or where the pass was refused before, which it
    /// then is again, without a step and whatever the count is.
    pub fn draw(&self, pass: &mut Pass, count: u32) -> Result<Span, Exhausted>
        requires own { IsPassOf self.now pass.old }
        requires count { (1 ≤ count) × (count ≤ MAX_UNITS) }
        ensures own { IsPassOf self.now pass.new × IsSame pass.old pass.new }
        ensures drew { Drew pass.old count result pass.new }
        ensures stored { IfOk result (λ _. IsStoredAbove K.stores (known_of pass.old)) }
        ensures rises { RisesFrom pass.old pass.new }
    {
        if let Some(refused) = pass.kept {
            return Err(refused);
        }
        let at = self
            .table
            .shared
            .fetch_add::<Draw<K>>(&mut pass.seat, 0, u64::from(count));
        let end = at + u64::from(count);
        if end > pass.total {
            let refused = Exhausted {
                at,
                count,
                total: pass.total,
            };
            pass.kept = Some(refused);
            return Err(refused);
        }
        Ok(Span { start: at, end })
    }

    /// The ceiling that is shown now, by one atomic load of word 1, and it is stored. The pass then knows it.
    pub fn look(&self, pass: &mut Pass) -> u64
        requires { IsPassOf self.now pass.old }
        ensures own { IsPassOf self.now pass.new × IsSame pass.old pass.new }
        ensures kept { pass.new.kept ≡ pass.old.kept }
        ensures seen { seen pass.new ≡ after_look (seen pass.old) result }
        ensures grows { known_of pass.old ≤ result }
        ensures known { known_of pass.new ≡ result }
        ensures stored { IsStored K.stores result }
    {
        let shown = self.table.shared.load::<Look<K>>(&mut pass.seat, 1);
        pass.known = shown;
        shown
    }

    /// The journal's mark now, or 0 where it has none, by one atomic load of word 2. The pass then knows it.
    pub fn marked(&self, pass: &mut Pass) -> u64
        requires { IsPassOf self.now pass.old }
        ensures own { IsPassOf self.now pass.new × IsSame pass.old pass.new }
        ensures kept { pass.new.kept ≡ pass.old.kept }
        ensures seen { seen pass.new ≡ after_marked (seen pass.old) result }
        ensures stays { (mark_of pass.old ≡ 0) ⊎ (mark_of pass.old ≡ result) }
        ensures mark { mark_of pass.new ≡ result }
    {
        self.table.shared.load::<FindMark>(&mut pass.seat, 2)
    }

    /// Shows a ceiling from the one that the journal's seat knows up to the total, by one atomic store to word 1. What the
    /// seat owns stores it already, as it stands, and draws that the seat knows of asked for it.
    pub fn raise(&self, seat: &mut JournalSeat<K>, ceiling: u64)
        requires own { IsSeatOf self.now seat.old }
        requires from { ceiling_of seat.old ≤ ceiling }
        requires to { ceiling ≤ limit_of seat.old }
        requires asked { ceiling ≤ asked_by_seat seat.old }
        requires named { K.label seat.old.keeper ≡ keeper_of seat.old }
        requires stored { K.stores seat.old.keeper ceiling }
        ensures own { IsSeatOf self.now seat.new }
        ensures keeper { seat.new.keeper ≡ seat.old.keeper }
        ensures raised { journal_view seat.new ≡ after_raise (journal_view seat.old) ceiling }
    {
        self.table.shared.store::<Raise>(&mut seat.seat, 1, ceiling);
    }

    /// Marks the journal's first fault by a number above 0, once, by one atomic store to word 2.
    pub fn mark(&self, seat: &mut JournalSeat<K>, first: u64)
        requires own { IsSeatOf self.now seat.old }
        requires once { own_mark_of seat.old ≡ 0 }
        requires at_least_one { 0 < first }
        ensures own { IsSeatOf self.now seat.new }
        ensures keeper { seat.new.keeper ≡ seat.old.keeper }
        ensures marked { journal_view seat.new ≡ after_mark (journal_view seat.old) first }
    {
        self.table.shared.store::<SetMark>(&mut seat.seat, 2, first);
    }
}
