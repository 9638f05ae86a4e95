// Ends a table, when all its passes are back.
ghost use Rattle.std.specs.Prelude.{◌≡◌, ◌+◌, ◌≤◌, max, length, All};
ghost use Rattle.lease_core.specs.Machine.{ceiling_for};
ghost use Rattle.lease_words.specs.Views.{units_drawn};
ghost use Rattle.lease_words.specs.Passes.{IsJournal};
ghost use Rattle.lease_words.specs.Calls.{all_entries, all_met_by, ceiling_of, limit_of, made_of, own_mark_of, base_of};
ghost use Rattle.lease_words.specs.Calls.{IsPassOf, IsSeatOf, AreGathered, with_passes};

use crate::keeper::Keeper;
use crate::pass::{JournalSeat, Pass};
use crate::rule::{Leases, TakeIn};
use crate::table::Words;
use crate::view::{Key, View};
use atomic_table::{Seat, Shared};

/// The journal's seat takes in what each pass knows.
fn take_in<K: Keeper>(
    shared: &Shared<(), View, Key, Leases<K>>,
    seat: &mut Seat<(), View>,
    mut passes: Vec<Pass>,
)
    requires own { (seat.old.table_id ≡ shared.now.table_id) × (shared.now.table_id.words ≡ 3) }
    requires journal { IsJournal seat.old.me }
    requires passes { All (λ p. p.seat.table_id ≡ shared.now.table_id) passes.items }
    ensures own { (seat.new.table_id ≡ seat.old.table_id) × (seat.new.id ≡ seat.old.id) }
    ensures view { seat.new.me.0 ≡ with_passes seat.old.me.0 passes.items }
{
    while let Some(pass) = passes.pop() {
        let Pass {
            seat: other,
            total: _,
            kept: _,
            known: _,
        } = pass;
        shared.join_seat::<TakeIn>(seat, other);
    }
}

impl<K: Keeper> Words<K> {
    /// Takes all passes back, and ends the table. What they drew tiles: no two entries have a unit in common, each
    /// starts at or above the base, and their counts reach from there to the greatest end. None knows a ceiling above
    /// the journal's seat's, or a mark other than 0 and the seat's. That ceiling is the base, or at most the one that the draws
    /// asked for. One of them at most met a fault of the journal. What kept the ceiling comes back.
    pub fn gather(self, journal: JournalSeat<K>, passes: Vec<Pass>) -> K
        requires own { IsSeatOf self journal × All (IsPassOf self) passes.items }
        requires all { length passes.items ≡ made_of journal }
        ensures keeper { result ≡ journal.keeper }
        ensures most { ceiling_of journal ≤ max (base_of self)
            (ceiling_for (limit_of journal) (base_of self + units_drawn (all_entries passes.items))) }
        ensures met { all_met_by passes.items ≤ 1 }
        ensures gathered { AreGathered (base_of self) (ceiling_of journal)
            (own_mark_of journal) passes.items }
    {
        let Words { table } = self;
        let JournalSeat { mut seat, keeper } = journal;
        take_in(&table.shared, &mut seat, passes);
        table.close_with(seat).free();
        keeper
    }
}
