// An area of a journal: slots of 32 bytes from a place on.
ghost use Rattle.std.specs.Prelude.{◌≡◌, ◌<◌, ◌≤◌, ◌+◌, ◌*◌, ◌^◌, ℕ, List, length, Option, Some, None, IfOk, IfErr, IfSome, OnOk, ◌&&◌, ◌||◌, ◌==◌};
ghost use Rattle.std.specs.Option.{option_map};
ghost use Rattle.zk_port.specs.Counts.{HasDiskCause};
ghost use Rattle.zk_port.specs.Disks.{LeavesOnly, Stays};
ghost use Rattle.zk_port.specs.Images.{HasDiskRoom, Only};
ghost use Rattle.lease_journal.specs.Journals.{AreUsed, IsOldOrNew, SameWhere, body_at, first_bodies, keeps_rule, number_at};
ghost use Rattle.lease_journal.specs.Causes.{HasStartCause, SlotSays, SlotCause, IsScanned, ScanCause};
ghost use Rattle.lease_journal.specs.Keeps.{ChangesAt, IsSpared, Keeps};
ghost use Rattle.lease_journal.specs.Scans.{next_bad, HasRead};
ghost use Rattle.lease_journal.specs.Steps.{IsReady, slot_written, body_bytes};
ghost use Rattle.lease_journal.specs.declared.fault.StartFault.TheVariants as start;
ghost use Rattle.zk_model.specs.declared.limits.TheConstants.{MAX_SLOTS};

use crate::OPEN;
use crate::fault::StartFault;
use crate::storing::{store_at, word_at};
use zk_model::JournalKind;
use zk_port::{Disk, Failed};

/// What stands in the slots: how many are in use, the body in the last of them, and the first whose body breaks the
/// rule of its kind.
#[derive(Clone, Copy)]
pub struct Scan {
    pub used: u64,
    pub last: (u64, u64),
    pub bad: Option<u64>,
}

/// Whether a body is as its kind asks for, after one whose first number is `before`.
fn keeps_rule(kind: JournalKind, total: u64, before: u64, body: (u64, u64)) -> bool
    ensures { result ≡ keeps_rule kind total before body }
{
    match kind {
        JournalKind::Claims => body.0 < body.1 && body.1 <= total,
        JournalKind::Ceilings => {
            body.1 == 0
                && before < body.0
                && body.0 <= total
                && (body.0 % 16 == 0 || body.0 == total)
        }
    }
}

/// The first bad slot, with one slot more.
fn next_bad(bad: Option<u64>, keeps: bool, slot: u64) -> Option<u64>
    ensures { result ≡ next_bad bad keeps slot }
{
    if bad.is_none() && !keeps {
        return Some(slot);
    }
    bad
}

/// Reads a slot: none where it is not open.
fn read_slot<B: Disk>(
    disk: &mut B,
    at: u64,
    slot: u64,
    slots: u64,
) -> Result<Option<(u64, u64)>, StartFault>
    requires place { at ≤ 2 ^ 40 }
    requires bounded { slots ≤ MAX_SLOTS }
    requires within { slot < slots }
    requires starts { (bytes : List ℕ) → (B.state disk.old).content ≡ Some bytes
        → at + 32 * slot ≤ length bytes }
    ensures says { IfOk result (λ says. (bytes : List ℕ) → (B.state disk.old).content ≡ Some bytes
        → SlotSays at bytes slot says) }
    ensures cause { IfErr result (λ e. (bytes : List ℕ) → (B.state disk.old).content ≡ Some bytes
        → SlotCause at slots slot bytes e) }
    ensures unread { IfErr result (λ e. (bad : ℕ) → e ≡ start.BadBody bad → ⊥) }
    ensures stays { Stays (B.state disk.old) (B.state disk.new) }
    ensures count { HasStartCause (B.state disk.old).faults (B.state disk.new).faults result }
{
    let mut bytes = [0; 32];
    let count = disk.read(at + 32 * slot, &mut bytes)?;
    if count < 32 {
        let got = at + 32 * slot + count as u64;
        let need = at + 32 * slots;
        return Err(StartFault::Short { need, got });
    }
    if bytes[31] != OPEN {
        return Ok(None);
    }
    Ok(Some((word_at(&bytes, 0), word_at(&bytes, 8))))
}

/// Reads slots up to the first that is not open, or to the last.
pub fn read_slots<B: Disk>(
    disk: &mut B,
    at: u64,
    kind: JournalKind,
    total: u64,
    slots: u64,
) -> Result<Scan, StartFault>
    requires place { at ≤ 2 ^ 40 }
    requires bounded { slots ≤ MAX_SLOTS }
    requires starts { (bytes : List ℕ) → (B.state disk.old).content ≡ Some bytes → at ≤ length bytes }
    ensures scanned { IfOk result (λ scan. (bytes : List ℕ) → (B.state disk.old).content ≡ Some bytes
        → IsScanned kind total at scan.used scan.last scan.bad bytes) }
    ensures used { IfOk result (λ scan. (bytes : List ℕ) → (B.state disk.old).content ≡ Some bytes
        → AreUsed at slots scan.used bytes) }
    ensures within { IfOk result (λ scan. scan.used ≤ slots) }
    ensures read { IfOk result (λ scan. scan.bad ≡ None → HasRead kind total scan.used scan.last) }
    ensures bad { IfOk result (λ scan. IfSome scan.bad (λ slot. slot < scan.used)) }
    ensures cause { IfErr result (λ e. (bytes : List ℕ) → (B.state disk.old).content ≡ Some bytes
        → ScanCause at slots bytes e) }
    ensures unread { IfErr result (λ e. (bad : ℕ) → e ≡ start.BadBody bad → ⊥) }
    ensures stays { Stays (B.state disk.old) (B.state disk.new) }
    ensures count { HasStartCause (B.state disk.old).faults (B.state disk.new).faults result }
{
    let mut used = 0;
    let mut last = (0, 0);
    let mut bad = None;
    while used < slots {
        let body = match read_slot(disk, at, used, slots) {
            Ok(Some(body)) => body,
            Ok(None) => return Ok(Scan { used, last, bad }),
            Err(fault) => return Err(fault),
        };
        bad = next_bad(bad, keeps_rule(kind, total, last.0, body), used);
        last = body;
        used += 1;
    }
    Ok(Scan { used, last, bad })
}

/// Writes a body into a slot, syncs, opens the slot, and syncs.
pub fn store_slot<B: Disk>(disk: &mut B, at: u64, slot: u64, a: u64, b: u64) -> Result<(), Failed>
    requires place { at ≤ 2 ^ 40 }
    requires bounded { slot < MAX_SLOTS }
    requires fits { HasDiskRoom (at + 32 * slot + 32) (B.state disk.old).room }
    ensures written { OnOk result ((B.state disk.new).content
        ≡ option_map (slot_written at slot (a, b)) (B.state disk.old).content) }
    ensures durable { OnOk result (Only (B.state disk.new).content (B.state disk.new).images) }
    ensures any_moment { (slots : ℕ) (bytes : List ℕ) → (B.state disk.old).content ≡ Some bytes
        → IsReady at slots slot bytes (B.state disk.old).images
        → LeavesOnly (B.state disk.old) (B.state disk.new)
        (IsOldOrNew at slots (first_bodies at slot bytes) (a, b)) }
    ensures read { (slots : ℕ) (bytes : List ℕ) → (B.state disk.old).content ≡ Some bytes
        → IsReady at slots slot bytes (B.state disk.old).images
        → IfSome (B.state disk.new).content (IsOldOrNew at slots (first_bodies at slot bytes) (a, b)) }
    ensures changes { ChangesAt (at + 32 * slot) 32 (B.state disk.old) (B.state disk.new) }
    ensures spared { (first : List ℕ) → Keeps (SameWhere (IsSpared first (at + 32 * slot)) first)
        (B.state disk.old) (B.state disk.new) }
    ensures cause { HasDiskCause (B.state disk.old).faults (B.state disk.new).faults result }
{
    let place = at + 32 * slot;
    store_at(disk, place, &body_bytes(a, b))?;
    store_at(disk, place + 31, &[OPEN])?;
    Ok(())
}

/// The bytes of a body.
fn body_bytes(a: u64, b: u64) -> [u8; 16]
    ensures { result ≡ body_bytes (a, b) }
{
    let mut bytes = [0; 16];
    bytes[..8].copy_from_slice(&a.to_le_bytes());
    bytes[8..].copy_from_slice(&b.to_le_bytes());
    bytes
}

/// The two numbers that 16 bytes say.
fn body_of(bytes: &[u8; 16]) -> (u64, u64)
    ensures { result ≡ (number_at bytes.now 0, number_at bytes.now 8) }
{
    (word_at(bytes, 0), word_at(bytes, 8))
}

/// Reads the body in a slot of the area at this place, whether it is open or not. Where the file ends before, the
/// missing bytes count as 0.
///
/// # Errors
///
/// Where the disk failed.
pub fn read_body<B: Disk>(disk: &mut B, at: u64, slot: u64) -> Result<(u64, u64), Failed>
    requires place { at ≤ 2 ^ 40 }
    requires bounded { slot < MAX_SLOTS }
    ensures body { IfOk result (λ body. (bytes : List ℕ) → (B.state disk.old).content ≡ Some bytes
        → at + 32 * slot + 16 ≤ length bytes → body ≡ body_at at bytes slot) }
    ensures stays { Stays (B.state disk.old) (B.state disk.new) }
    ensures cause { HasDiskCause (B.state disk.old).faults (B.state disk.new).faults result }
{
    let mut bytes = [0; 16];
    disk.read(at + 32 * slot, &mut bytes)?;
    Ok(body_of(&bytes))
}
