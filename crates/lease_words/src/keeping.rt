// What the journal's seat does with what it owns.
ghost use Rattle.std.specs.Prelude.{◌≡◌, ◌≤◌, ℕ, OnOk};
ghost use Rattle.lease_words.specs.Calls.{asked_by_seat};

use crate::keeper::Keeper;
use crate::pass::JournalSeat;
use lease_journal::JournalFault;

impl<K: Keeper> JournalSeat<K> {
    /// What keeps the ceiling.
    pub fn keeper(&self) -> &K
        ensures { result.now ≡ self.now.keeper }
    {
        &self.keeper
    }

    /// Has a ceiling stored that draws asked for, as the seat knows, which changes nothing that is shown. What was stored before
    /// stays stored, at each moment.
    ///
    /// # Errors
    ///
    /// As the keeper's.
    pub fn store(&mut self, ceiling: u64) -> Result<(), JournalFault>
        requires may { K.may self.old.keeper ceiling }
        requires asked { ceiling ≤ asked_by_seat self.old }
        ensures seat { self.new.seat ≡ self.old.seat }
        ensures moves { K.moves self.old.keeper ceiling result self.new.keeper }
        ensures named { K.label self.new.keeper ≡ K.label self.old.keeper }
        ensures stored { OnOk result ((c : ℕ) → K.stores self.old.keeper c
            → K.stores self.new.keeper ceiling) }
        ensures keeps { (c : ℕ) → K.stores self.old.keeper c → K.stores self.new.keeper c }
        ensures moments { (c : ℕ) → K.stores self.old.keeper c → K.leaves self.old.keeper self.new.keeper c }
    {
        self.keeper.store(ceiling)
    }

    /// Ends the seat, and gives what it owned.
    pub fn into_keeper(self) -> K
        ensures { result ≡ self.keeper }
    {
        let JournalSeat { keeper, .. } = self;
        keeper
    }
}
