// The journal of ceilings, as the seat that shows them owns it.
ghost use Rattle.std.specs.Prelude.{◌≡◌};

use crate::raising::store_ceiling;
use lease_words::Keeper;
use twin_journal::{JournalFault, Twin};
use zk_port::Disk;

/// A journal of ceilings, with its id and its total of units.
#[derive(Drop)]
pub struct CeilingJournal<B: Disk> {
    pub(crate) journal: Twin<B>,
    pub(crate) id: [u8; 32],
    pub(crate) total: u64,
}

impl<B: Disk> Keeper for CeilingJournal<B> {
    ghost use Rattle.std.specs.Prelude.{◌≡◌, ◌≤◌};
    ghost use Rattle.lease_store.specs.Storing.{LeavesCeiling, CeilingMayFollow, Moved, Stores};

    ghost label = { λ k. k.id };

    ghost stores = { λ k ceiling. Stores B.state k.total k.journal ceiling };

    ghost may = { λ k ceiling. (1 ≤ k.journal.slots) × CeilingMayFollow k.total k.journal.last.0 ceiling };

    ghost moves = { λ k ceiling result m. Moved B.state k.journal ceiling result m.journal
        × (m.total ≡ k.total) };

    ghost leaves = { λ k m ceiling. LeavesCeiling B.state k.total k.journal m.journal ceiling };

    fn name(&self) -> [u8; 32] {
        self.id
    }

    fn store(&mut self, ceiling: u64) -> Result<(), JournalFault> {
        store_ceiling(&mut self.journal, ceiling)
    }
}
