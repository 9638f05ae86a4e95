//! Journals of two areas, in which each end of a session writes down which units are spent, and which never need be full.
//!
//! Such a journal is a header of 64 bytes and two areas, each a head of 32 bytes and as many slots of 32 bytes as the
//! header says. Numbers have their low byte first. In the header stand `WQSJRNL1` in ASCII, the byte of the kind (2 the
//! prover's claims, 3 the verifier's ceilings), 7 zero bytes, the total of units and the number of slots, 8 bytes each,
//! and the id of the dealt files, 32 bytes. A head has a generation in its first 8 bytes, and is open where its last
//! byte is 0x5A. The area with an open head that has the greater generation counts, the first where both are equal: the
//! bodies of its first slots that are open are what the journal says.
//!
//! A put writes a body into a slot of that area, as in a journal of one area. A compaction writes a whole list of bodies
//! into the other area, with the next generation, while the head of that area is closed, and opens this head last. So a
//! crash at any moment leaves the journal with the old bodies or with the new ones.
//!
//!     if twin.used() == twin.slots() {
//!         return twin.compact(&mut merged);
//!     }
//!     twin.put(start, end)
#![tactic(auto)]

ghost use Rattle.std.specs.Prelude.{◌≡◌, ◌≤◌, IfOk};
ghost use Rattle.lease_journal.specs.Twins.{blank_twin_bytes, first_head, twin_ceiling_slots};
ghost use Rattle.zk_model.specs.declared.limits.TheConstants.{MAX_SLOTS};
ghost use Rattle.twin_journal.specs.Laws.{BlankTwinIsNew, GenerationsGoOn, RecoversOneList, SaidIsTidy, SaysWhatItRecovers, TwinStartsAgain};

mod beginning;
mod bodies;
mod compacting;
mod filling;
mod header;
mod heads;
mod laying;
mod lengths;
mod places;
mod starting;
mod twin;

pub use bodies::{Bodies, OneBody};
use header::header_of;
pub use laying::{NewTwin, lay};
use lease_journal::ceiling_slots;
pub use lease_journal::{JournalFault, JournalKind, JournalName, StartFault};
use std::alloc::{AllocError, Global};
pub use twin::Twin;
use zk_model::MAX_CEILING_SLOTS;

/// The byte of a head or of a slot that counts.
const OPEN: u8 = 0x5A;

/// A new journal with areas of this many slots: generation 1, in which nothing is written yet.
///
/// # Errors
///
/// Only where memory runs out.
pub fn blank_twin(
    alloc: Global,
    kind: JournalKind,
    id: &[u8; 32],
    total: u64,
    slots: u64,
) -> Result<Vec<u8>, AllocError>
    requires { slots ≤ MAX_SLOTS }
    ensures { IfOk result (λ bytes. bytes.items ≡ blank_twin_bytes kind id.now total slots) }
{
    let name = JournalName {
        kind,
        id: *id,
        total,
    };
    let length = 128 + 64 * slots as usize;
    let mut bytes = Vec::with_capacity(alloc, length)?;
    bytes.extend_from_slice(&header_of(name, slots))?;
    bytes.extend_from_slice(&first_head())?;
    bytes.resize(length, 0)?;
    Ok(bytes)
}

/// The head of a new journal's first area: generation 1, and open.
fn first_head() -> [u8; 32]
    ensures { result ≡ first_head }
{
    let mut head = [0; 32];
    head[0] = 1;
    head[31] = OPEN;
    head
}

/// How many slots an area of the verifier's journal has for this many units: one for each 16, rounded up, and at most
/// 4,096.
pub fn twin_ceiling_slots(total: u64) -> u64
    ensures { result ≡ twin_ceiling_slots total }
{
    MAX_CEILING_SLOTS.min(ceiling_slots(total))
}

/// A new journal whose areas have a number of slots that they may have stands, and says no body in generation 1.
pub fn blank_twin_is_new()
    ensures { BlankTwinIsNew }
{}

/// Bytes that say bodies are tidy, and recover these bodies.
pub fn says_what_it_recovers()
    ensures { SaysWhatItRecovers }
{}

/// Where a journal stands in a file and says bodies, each journal that stands in that file is tidy.
pub fn said_is_tidy()
    ensures { SaidIsTidy }
{}

/// Bytes recover one list of bodies.
pub fn recovers_one_list()
    ensures { RecoversOneList }
{}

/// Files of a journal with bodies that keep their rules and a generation that there may be for them are refused by no
/// start but where the disk fails.
pub fn twin_starts_again()
    ensures { TwinStartsAgain }
{}

/// Generations that there may be go on to be such over puts and compactions.
pub fn generations_go_on()
    ensures { GenerationsGoOn }
{}
