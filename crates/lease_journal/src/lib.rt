//! Journals, in which each end of a session writes down which units are spent: areas of slots, and the journals of one
//! area, which are migrated.
//!
//! A journal of one area is a header of 64 bytes and slots of 32 bytes. Numbers have their low byte first. In the header
//! stand `WQSJRNL1` in ASCII, the byte of the kind (0 the prover's claims, 1 the verifier's ceilings), 7 zero bytes, the
//! total of units and the number of slots, 8 bytes each, and the id of the dealt files, 32 bytes. Byte 15, the last of
//! the zero bytes, is the gate of the migration: 0x5A once a journal of two areas stands behind, which then counts. A
//! slot has two numbers, its body, 15 bytes that nothing reads, and a byte that is 0x5A once the slot is open. The bodies
//! of the first slots that are open, up to the first that is not, are what an area says.
//!
//! The header of a journal of two areas has the same form, with another byte of the kind: `header` makes, reads and judges
//! both, each by the name of its journal (`JournalName`).
//!
//! A body is put by `area::store_slot`: it is written, synced, its slot opened, and synced, so that a crash at any moment
//! leaves the area with the body or without.
#![tactic(auto)]

ghost use Rattle.std.specs.Prelude.{◌≡◌};
ghost use Rattle.lease_journal.specs.Journals.{ceiling_slots, claim_slots};
ghost use Rattle.lease_journal.specs.Laws.{OneAreaReadsAgain};

pub mod area;
mod fault;
pub mod header;
mod one_area;
pub mod storing;

pub use fault::{JournalFault, StartFault};
pub use header::JournalName;
pub use one_area::{OneArea, read_one_area};
pub use zk_model::JournalKind;
use zk_model::MAX_CLAIM_SLOTS;

/// The byte of a slot, and of the gate of a migration, that counts.
const OPEN: u8 = 0x5A;

/// A journal of one area that stands, whose bodies keep their rules, is read but where the disk fails.
pub fn one_area_reads_again()
    ensures { OneAreaReadsAgain }
{}

/// How many slots the verifier's journal of one area has for this many units: one for each 16, rounded up.
pub fn ceiling_slots(total: u64) -> u64
    ensures { result ≡ ceiling_slots total }
{
    total.div_ceil(16)
}

/// How many slots the prover's journal has that is made with its dealt file: one for each unit, and at most 4,096.
pub fn claim_slots(total: u64) -> u64
    ensures { result ≡ claim_slots total }
{
    total.min(MAX_CLAIM_SLOTS)
}
