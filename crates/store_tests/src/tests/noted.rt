// Lease words whose ceiling is kept in memory alone.
ghost use Rattle.std.specs.Prelude.{◌≡◌, ◌≤◌, length, IfOk};
ghost use Rattle.lease_words.specs.Views.{journal_of};
ghost use Rattle.lease_words.specs.Calls.{base_of, journal_view, total_of, words_id, AreFresh, IsSeatOf};
ghost use Rattle.zk_model.specs.declared.limits.TheConstants.{MAX_PASSES, MAX_STORE_UNITS};

use lease_words::{JournalSeat, Keeper, Pass, Words, start};
use std::alloc::{AllocError, Global};
use twin_journal::JournalFault;

/// A ceiling in memory.
#[derive(Drop)]
pub struct Noted {
    name: [u8; 32],
    ceiling: u64,
}

impl Keeper for Noted {
    ghost use Rattle.std.specs.Prelude.{◌≡◌, ◌≤◌};

    ghost label = { λ k. k.name };

    ghost stores = { λ k ceiling. ceiling ≤ k.ceiling };

    ghost may = { λ k ceiling. k.ceiling ≤ ceiling };

    ghost moves = { λ k ceiling result m. m.ceiling ≡ ceiling };

    ghost leaves = { λ k m ceiling. ceiling ≤ m.ceiling };

    fn name(&self) -> [u8; 32] {
        self.name
    }

    fn store(&mut self, ceiling: u64) -> Result<(), JournalFault> {
        self.ceiling = ceiling;
        Ok(())
    }
}

/// Words that begin at a base, which is noted.
pub fn noted_words(
    alloc: Global,
    base: u64,
    total: u64,
    passes: u32,
) -> Result<(Words<Noted>, JournalSeat<Noted>, Vec<Pass>), AllocError>
    requires range { (base ≤ total) × (total ≤ MAX_STORE_UNITS) }
    requires passes { (1 ≤ passes) × (passes ≤ MAX_PASSES) }
    ensures words { IfOk result (λ r. (base_of r.0 ≡ base) × (total_of r.0 ≡ total)) }
    ensures own { IfOk result (λ r. IsSeatOf r.0 r.1) }
    ensures keeper { IfOk result (λ r. r.1.keeper.ceiling ≡ base) }
    ensures journal { IfOk result (λ r. journal_view r.1 ≡ journal_of r.1.keeper.name base total passes) }
    ensures count { IfOk result (λ r. length r.2.items ≡ passes) }
    ensures fresh { IfOk result (λ r. AreFresh (words_id r.0) base total r.2.items) }
{
    let noted = Noted {
        name: [0; 32],
        ceiling: base,
    };
    match start(alloc, noted, base, total, passes) {
        Ok(parts) => Ok(parts),
        Err((fault, _)) => Err(fault),
    }
}
