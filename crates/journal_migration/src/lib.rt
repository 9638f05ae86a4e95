//! Migration of journals of one area into journals of two areas, in place.
//!
//! Byte 15 of the header of a journal of one area is the gate of its migration. The new journal is written whole behind
//! the old one, from its length on, and synced; then the gate is made 0x5A, and synced. So a crash at any moment leaves a
//! file that says the same: by the old journal while the gate is anything else, and by the new one once it is 0x5A.
#![tactic(auto)]

ghost use Rattle.std.specs.Prelude.{◌≡◌, ◌≤◌, ◌+◌, ℕ, List, Some, IfOk, IfErr, OnOk};
ghost use Rattle.zk_port.specs.Images.{Only};
ghost use Rattle.journal_migration.specs.Migrations.{moved_slots, one_area_end};
ghost use Rattle.lease_journal.specs.Twins.{twin_length};
ghost use Rattle.lease_journal.specs.Causes.{SaysSlots};
ghost use Rattle.claim_store.specs.Causes.{HasReadCause};
ghost use Rattle.journal_migration.specs.Migrating.{MigrationCause, MovedSays, MovesSafely, RefusesUnwritten, SoundIsMigrated};

mod migrating;
mod moving;
mod reading;

pub use claim_store::StoreFault;
use lease_journal::{JournalName, OneArea, read_one_area};
use migrating::{Found, move_on};
use std::alloc::Global;
use zk_model::JournalKind;
use zk_port::Disk;

/// What a migration found.
#[derive(Clone, Copy, Debug, PartialEq, Eq)]
pub enum Moved {
    /// The journal was migrated: so many slots of the area that counts now are in use.
    Done { used: u64 },
    /// It had been migrated before. No slot was read.
    Already,
}

/// Migrates the journal of one area of this side, id and total that stands on the disk. The new journal has generation 1:
/// on the prover's side as many slots as the old one, and the ranges of its claims; on the verifier's its last ceiling.
/// It syncs, reads the journal, writes the new one behind it in pieces of at most 64 bytes, syncs, opens the gate, and
/// syncs. Each byte of the new journal is written.
///
/// # Errors
///
/// `Device` where a call of the disk failed; the reasons for which the journal is not read; last `BadBody` of the first
/// open slot whose span has a unit of an earlier one; `NoMemory`, for claims alone, only where memory runs out. Only
/// where it is `Device` may something be written.
pub fn migrate<B: Disk>(
    alloc: Global,
    disk: &mut B,
    kind: JournalKind,
    id: &[u8; 32],
    total: u64,
) -> Result<Moved, StoreFault>
    requires room { (size : ℕ) → (B.state disk.old).room ≡ Some size → (slots : ℕ)
        → SaysSlots (B.state disk.old).content slots
        → one_area_end slots + twin_length (moved_slots kind total slots) ≤ size }
    ensures says { IfOk result (λ moved. (bytes : List ℕ) → (B.state disk.old).content ≡ Some bytes
        → MovedSays kind id.now total bytes (B.state disk.old) (B.state disk.new) moved) }
    ensures moves { (bytes : List ℕ) → (B.state disk.old).content ≡ Some bytes
        → MovesSafely kind id.now total bytes (B.state disk.old) (B.state disk.new) }
    ensures refused { IfErr result (RefusesUnwritten (B.state disk.old) (B.state disk.new)) }
    ensures durable { OnOk result (Only (B.state disk.new).content (B.state disk.new).images) }
    ensures chosen { (B.state disk.new).chosen ≡ (B.state disk.old).chosen }
    ensures cause { IfErr result (λ e. (bytes : List ℕ) → (B.state disk.old).content ≡ Some bytes
        → MigrationCause kind id.now total bytes e) }
    ensures faults { HasReadCause (B.state disk.old).faults (B.state disk.new).faults result }
{
    let found = match read_one_area(disk, kind, id, total) {
        Ok(OneArea::Here { slots, used, last }) => Found { slots, used, last },
        Ok(OneArea::Moved) => return Ok(Moved::Already),
        Err(fault) => return Err(StoreFault::Journal(fault)),
    };
    let name = JournalName {
        kind,
        id: *id,
        total,
    };
    match move_on(alloc, disk, name, found) {
        Ok(used) => Ok(Moved::Done { used }),
        Err(fault) => Err(fault),
    }
}

/// A sound journal of one area, and one that was migrated, are refused only where the disk fails or memory runs out.
pub fn sound_is_migrated()
    ensures { SoundIsMigrated }
{}
