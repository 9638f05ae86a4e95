// What a thread draws with, and what the journal raises the ceiling with.
ghost use Rattle.std.specs.Prelude.{◌≡◌};
ghost use Rattle.lease_words.specs.Passes.{IsPass, IsJournal, IsReceipt, IsFaultWord};
ghost use Rattle.lease_words.specs.Views.{own};

use crate::fault::Exhausted;
use crate::view::View;
use atomic_table::Seat;

/// The right to draw, which one thread has at a time. A pass keeps the ceiling that it saw last, and a refusal.
#[derive(Drop)]
pub struct Pass {
    pub(crate) seat: Seat<(), View>,
    pub(crate) total: u64,
    pub(crate) kept: Option<Exhausted>,
    pub(crate) known: u64,
    ghost is_pass: { IsPass seat.me total kept },
    ghost is_known: { known ≡ (own seat.me.0).known },
}

/// Says how far units were drawn. A pass writes it, for the journal's seat.
#[derive(Drop)]
pub struct Receipt {
    pub(crate) seat: Seat<(), View>,
    ghost is_receipt: { IsReceipt seat.me },
}

/// A word of the faults that were met. The journal's seat gives it to the pass for which it met them.
#[derive(Drop)]
pub struct FaultWord {
    pub(crate) seat: Seat<(), View>,
    ghost is_word: { IsFaultWord seat.me },
}

/// The one seat that raises the ceiling and sets the mark. It owns what keeps the ceiling, and lends nobody the right to
/// change it but by `store`, which never lowers what is stored.
#[derive(Drop)]
pub struct JournalSeat<K> {
    pub(crate) seat: Seat<(), View>,
    pub(crate) keeper: K,
    ghost is_journal: { IsJournal seat.me },
}
