// The headers of journals: what names one, and how the 64 bytes of either form are made, read and judged.
ghost use Rattle.std.specs.Prelude.{◌≡◌, ◌<◌, ◌≤◌, ◌^◌, ℕ, List, Option, Some, None, IfOk, IfErr, true};
ghost use Rattle.zk_port.specs.Disks.{Stays};
ghost use Rattle.lease_journal.specs.Journals.{are_slots, journal_code, slots_at};
ghost use Rattle.lease_journal.specs.Twins.{HasMovedHeader, IsFirstMovedWrong, is_migrated, is_wrong_beside_gate};
ghost use Rattle.lease_journal.specs.Causes.{HasStartCause};
ghost use Rattle.lease_journal.specs.Headers.{IsFirstOf, IsRead, NoHeaderCause, header_with, is_wrong_beside, may_be_slots};
ghost use Rattle.lease_journal.specs.declared.fault.StartFault.TheVariants as start;
ghost use Rattle.zk_model.specs.declared.limits.TheConstants.{MAX_SLOTS};

use crate::fault::StartFault;
use crate::storing::word_at;
use crate::{OPEN, ceiling_slots};
use zk_model::{JournalKind, MAX_SLOTS};
use zk_port::Disk;

/// What names a journal: its kind, the id of the dealt files, and the total of units.
#[derive(Clone, Copy)]
pub struct JournalName {
    pub kind: JournalKind,
    pub id: [u8; 32],
    pub total: u64,
}

/// The byte of a kind in a journal of one area.
pub fn journal_code(kind: JournalKind) -> u8
    ensures { result ≡ journal_code kind }
{
    match kind {
        JournalKind::Claims => 0,
        JournalKind::Ceilings => 1,
    }
}

/// Whether there may be so many slots: in a journal of ceilings only this number of them.
pub fn may_be_slots(kind: JournalKind, ceilings: u64, slots: u64) -> bool
    ensures { result ≡ may_be_slots kind ceilings slots }
{
    let fits = 1 <= slots && slots <= MAX_SLOTS;
    match kind {
        JournalKind::Claims => fits,
        JournalKind::Ceilings => fits && slots == ceilings,
    }
}

/// The header of a journal of this name, with this byte of its kind.
pub fn header_with(code: u8, name: JournalName, slots: u64) -> [u8; 64]
    ensures { result ≡ header_with code name.id name.total slots }
{
    let mut header = [0; 64];
    header[..8].copy_from_slice(b"WQSJRNL1");
    header[8] = code;
    header[16..24].copy_from_slice(&name.total.to_le_bytes());
    header[24..32].copy_from_slice(&slots.to_le_bytes());
    header[32..].copy_from_slice(&name.id);
    header
}

/// The first byte of a header that is wrong beside one that is wanted, where the number of slots fits or not.
pub fn first_wrong(header: &[u8; 64], wanted: &[u8; 64], fits: bool) -> Option<u64>
    ensures { IsFirstOf (is_wrong_beside wanted.now fits header.now) result }
{
    for place in 0..64 {
        if is_wrong(header, wanted, fits, place) {
            return Some(place as u64);
        }
    }
    None
}

/// Whether a byte of a header is wrong beside one that is wanted.
fn is_wrong(header: &[u8; 64], wanted: &[u8; 64], fits: bool, place: usize) -> bool
    requires { place < 64 }
    ensures { result ≡ is_wrong_beside wanted.now fits header.now place }
{
    if place == 24 {
        return !fits;
    }
    (place < 24 || place >= 32) && header[place] != wanted[place]
}

/// Reads the 64 bytes from this place on.
pub fn read_whole<B: Disk>(disk: &mut B, begin: u64) -> Result<[u8; 64], StartFault>
    requires { begin ≤ 2 ^ 40 }
    ensures read { IfOk result (λ header. (bytes : List ℕ) → (B.state disk.old).content ≡ Some bytes
        → IsRead header bytes begin 64) }
    ensures cause { IfErr result (λ e. (bytes : List ℕ) → (B.state disk.old).content ≡ Some bytes
        → NoHeaderCause (λ _. ⊥) begin bytes e) }
    ensures ended { IfErr result (λ e. (need got : ℕ) → e ≡ start.Short need got
        → (B.state disk.new).faults ≡ (B.state disk.old).faults) }
    ensures unread { IfErr result (λ e. (bad : ℕ) → e ≡ start.BadBody bad → ⊥) }
    ensures stays { Stays (B.state disk.old) (B.state disk.new) }
    ensures count { HasStartCause (B.state disk.old).faults (B.state disk.new).faults result }
{
    let mut header = [0; 64];
    let count = disk.read(begin, &mut header)?;
    if count < 64 {
        let got = count as u64;
        return Err(StartFault::Short { need: 64, got });
    }
    Ok(header)
}

/// Whether these are the first bytes of a file of this side that was migrated.
pub fn is_migrated(header: &[u8; 64], kind: JournalKind) -> bool
    ensures { result ≡ is_migrated kind header.now }
{
    header[8] == journal_code(kind) && header[15] == OPEN
}

/// The first byte of the header of a journal of one area that is not as its name asks for, where the gate of the
/// migration is not judged.
pub fn first_wrong_beside_gate(header: &[u8; 64], name: JournalName) -> Option<u64>
    ensures { IsFirstOf (is_wrong_beside_gate name.kind name.id name.total header.now) result }
{
    let slots = word_at(header, 24);
    let fits = may_be_slots(name.kind, ceiling_slots(name.total), slots);
    let mut judged = *header;
    judged[15] = 0;
    first_wrong(
        &judged,
        &header_with(journal_code(name.kind), name, 0),
        fits,
    )
}

/// What a header of a journal of one area says: how many slots there are, and whether the journal was migrated.
#[derive(Clone, Copy)]
pub struct FirstHeader {
    pub slots: u64,
    pub is_moved: bool,
}

/// Reads the header of a journal of one area, in which the gate of the migration is not judged.
pub fn read_header<B: Disk>(disk: &mut B, name: JournalName) -> Result<FirstHeader, StartFault>
    ensures header { IfOk result (λ header. (bytes : List ℕ) → (B.state disk.old).content ≡ Some bytes
        → (header.slots ≡ slots_at bytes) × (header.is_moved ≡ is_migrated name.kind bytes)
        × HasMovedHeader name.kind name.id name.total bytes) }
    ensures fits { IfOk result (λ header. are_slots name.kind name.total header.slots ≡ true) }
    ensures bounded { IfOk result (λ header. header.slots ≤ MAX_SLOTS) }
    ensures cause { IfErr result (λ e. (bytes : List ℕ) → (B.state disk.old).content ≡ Some bytes
        → NoHeaderCause (IsFirstMovedWrong name.kind name.id name.total bytes) 0 bytes e) }
    ensures unread { IfErr result (λ e. (bad : ℕ) → e ≡ start.BadBody bad → ⊥) }
    ensures stays { Stays (B.state disk.old) (B.state disk.new) }
    ensures count { HasStartCause (B.state disk.old).faults (B.state disk.new).faults result }
{
    let header = match read_whole(disk, 0) {
        Ok(header) => header,
        Err(fault) => return Err(fault),
    };
    if let Some(place) = first_wrong_beside_gate(&header, name) {
        return Err(StartFault::BadHeader { place });
    }
    Ok(FirstHeader {
        slots: word_at(&header, 24),
        is_moved: is_migrated(&header, name.kind),
    })
}
