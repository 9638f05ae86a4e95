// What passes and the journal's seat tell each other.
ghost use Rattle.std.specs.Prelude.{◌≡◌};
ghost use Rattle.lease_words.specs.Views.{after_receipt, after_telling, after_told};
ghost use Rattle.lease_words.specs.Calls.{seen, drawn_by_pass, drawn_on, journal_view, met_on, own_met_of};
ghost use Rattle.lease_words.specs.Calls.{IsPassOf, IsReceiptOf, IsSame, IsSeatOf, IsWordOf};

use crate::keeper::Keeper;
use crate::pass::{FaultWord, JournalSeat, Pass, Receipt};
use crate::rule::{BeTold, ReadReceipt, Tell, WriteReceipt};
use crate::table::Words;

impl<K: Keeper> Words<K> {
    /// A receipt for what the pass drew, which stays as it was.
    pub fn receipt(&self, pass: &mut Pass) -> Receipt
        requires { IsPassOf self.now pass.old }
        ensures own { IsPassOf self.now pass.new × IsSame pass.old pass.new }
        ensures kept { pass.new.kept ≡ pass.old.kept }
        ensures seen { seen pass.new ≡ seen pass.old }
        ensures receipt { IsReceiptOf self.now result }
        ensures drawn { drawn_on result ≡ drawn_by_pass pass.old }
    {
        Receipt {
            seat: self.table.shared.split_seat::<WriteReceipt>(&mut pass.seat),
        }
    }

    /// The journal's seat learns from a receipt how far units were drawn.
    pub fn learn(&self, seat: &mut JournalSeat<K>, receipt: Receipt)
        requires own { IsSeatOf self.now seat.old }
        requires receipt { IsReceiptOf self.now receipt }
        ensures own { IsSeatOf self.now seat.new }
        ensures keeper { seat.new.keeper ≡ seat.old.keeper }
        ensures learned { journal_view seat.new ≡ after_receipt (journal_view seat.old) receipt.seat.me.0 }
    {
        let Receipt { seat: written } = receipt;
        self.table
            .shared
            .join_seat::<ReadReceipt>(&mut seat.seat, written);
    }

    /// A word of the faults that the journal's seat met and gave no word of yet.
    pub fn tell(&self, seat: &mut JournalSeat<K>) -> FaultWord
        requires { IsSeatOf self.now seat.old }
        ensures own { IsSeatOf self.now seat.new }
        ensures keeper { seat.new.keeper ≡ seat.old.keeper }
        ensures told { journal_view seat.new ≡ after_telling (journal_view seat.old) }
        ensures word { IsWordOf self.now result }
        ensures met { met_on result ≡ own_met_of seat.old }
    {
        FaultWord {
            seat: self.table.shared.split_seat::<Tell>(&mut seat.seat),
        }
    }

    /// The pass takes a word of faults, which it met then.
    pub fn be_told(&self, pass: &mut Pass, word: FaultWord)
        requires own { IsPassOf self.now pass.old }
        requires word { IsWordOf self.now word }
        ensures own { IsPassOf self.now pass.new × IsSame pass.old pass.new }
        ensures kept { pass.new.kept ≡ pass.old.kept }
        ensures seen { seen pass.new ≡ after_told (seen pass.old) word.seat.me.0 }
    {
        let FaultWord { seat: given } = word;
        self.table.shared.join_seat::<BeTold>(&mut pass.seat, given);
    }
}
