// How a list of bodies is written into the area that is not the active one, and that area made the active one.
ghost use Rattle.std.specs.Prelude.{◌≡◌, ◌<◌, ◌≤◌, ◌+◌, ◌*◌, ◌^◌, ℕ, List, length, get_or, Bool, true, false, Some, IfSome, IfOk, OnOk};
ghost use Rattle.zk_port.specs.Counts.{HasDiskCause};
ghost use Rattle.zk_port.specs.Disks.{LeavesOnly};
ghost use Rattle.zk_port.specs.Images.{HasDiskRoom, Only};
ghost use Rattle.lease_journal.specs.Journals.{body_before};
ghost use Rattle.lease_journal.specs.Twins.{SaysOldOrNew};
ghost use Rattle.zk_model.specs.declared.limits.TheConstants.{MAX_SLOTS};
ghost use Rattle.lease_journal.specs.Keeps.{ChangesAt, Keeps};
ghost use Rattle.twin_journal.specs.Compactions.{Closes, HasByte, IsTurned, IsAreaWritten, MayTurn};

use crate::OPEN;
use crate::bodies::Bodies;
use crate::filling::{Filled, write_slots};
use lease_journal::storing::store_at;
use zk_port::{Disk, Failed};

/// Where a list of bodies is written: the place of an area's head, how many slots the area has, and the generation that it
/// gets.
#[derive(Clone, Copy)]
pub struct Target {
    pub head: u64,
    pub slots: u64,
    pub generation: u64,
}

/// Closes a gate that is open, and syncs.
fn close<B: Disk>(disk: &mut B, gate: u64, is_open: bool) -> Result<(), Failed>
    requires place { gate ≤ 2 ^ 38 }
    requires fits { HasDiskRoom (gate + 1) (B.state disk.old).room }
    ensures any_moment { (bytes : List ℕ) → (B.state disk.old).content ≡ Some bytes
        → ((image : List ℕ) → (B.state disk.old).images image → image ≡ bytes)
        → (is_open ≡ true → get_or bytes gate 0 ≡ 90)
        → LeavesOnly (B.state disk.old) (B.state disk.new) (Closes gate bytes) }
    ensures read { (bytes : List ℕ) → (B.state disk.old).content ≡ Some bytes
        → (is_open ≡ true → get_or bytes gate 0 ≡ 90)
        → IfSome (B.state disk.new).content (Closes gate bytes) }
    ensures closed { OnOk result ((bytes : List ℕ) → (B.state disk.old).content ≡ Some bytes
        → (is_open ≡ false → ¬ (get_or bytes gate 0 ≡ 90))
        → IfSome (B.state disk.new).content (λ now. ¬ (get_or now gate 0 ≡ 90))) }
    ensures durable { OnOk result ((bytes : List ℕ) → (B.state disk.old).content ≡ Some bytes
        → ((image : List ℕ) → (B.state disk.old).images image → image ≡ bytes)
        → Only (B.state disk.new).content (B.state disk.new).images) }
    ensures changes { ChangesAt gate 1 (B.state disk.old) (B.state disk.new) }
    ensures cause { HasDiskCause (B.state disk.old).faults (B.state disk.new).faults result }
{
    if !is_open {
        return Ok(());
    }
    store_at(disk, gate, &[0])
}

/// Writes the generation of an area and its slots, but not the gate of its head, and syncs.
fn write_area<B: Disk, F: Bodies>(disk: &mut B, to: Target, next: &mut F) -> Result<Filled, Failed>
    requires place { to.head ≤ 2 ^ 37 }
    requires bounded { to.slots ≤ MAX_SLOTS }
    requires fits { HasDiskRoom (to.head + 32 * (to.slots + 1)) (B.state disk.old).room }
    requires few { length (F.rest next.old) ≤ to.slots }
    ensures written { OnOk result ((bytes : List ℕ) → (B.state disk.old).content ≡ Some bytes
        → to.head + 32 ≤ length bytes
        → IfSome (B.state disk.new).content (IsAreaWritten to.head to.slots to.generation (F.rest next.old))) }
    ensures used { IfOk result (λ done. done.used ≡ length (F.rest next.old)) }
    ensures last { IfOk result (λ done.
        done.last ≡ body_before (F.rest next.old) (length (F.rest next.old))) }
    ensures durable { OnOk result (Only (B.state disk.new).content (B.state disk.new).images) }
    ensures gate { (byte : ℕ) → Keeps (HasByte (to.head + 31) byte) (B.state disk.old) (B.state disk.new) }
    ensures changes { ChangesAt to.head (32 * (to.slots + 1)) (B.state disk.old) (B.state disk.new) }
    ensures cause { HasDiskCause (B.state disk.old).faults (B.state disk.new).faults result }
{
    disk.write_at(to.head, &to.generation.to_le_bytes())?;
    let filled = write_slots(disk, to.head + 32, to.slots, next)?;
    disk.sync()?;
    Ok(filled)
}

/// Writes bodies into the area whose head stands at this place, and makes it the active one: closes its head where it is
/// open, writes the generation and the slots, and opens the head, each time with a sync.
pub fn turn<B: Disk, F: Bodies>(
    disk: &mut B,
    to: Target,
    is_open: bool,
    next: &mut F,
) -> Result<Filled, Failed>
    requires place { to.head ≤ 2 ^ 37 }
    requires bounded { to.slots ≤ MAX_SLOTS }
    requires fits { HasDiskRoom (to.head + 32 * (to.slots + 1)) (B.state disk.old).room }
    requires few { length (F.rest next.old) ≤ to.slots }
    ensures any_moment { (begin : ℕ) (second : Bool) (active : ℕ) (bodies : List (ℕ × ℕ)) (bytes : List ℕ)
        → MayTurn (B.state disk.old) begin to.slots second to.head active to.generation is_open bodies bytes
        → LeavesOnly (B.state disk.old) (B.state disk.new)
        (SaysOldOrNew begin to.slots active bodies to.generation (F.rest next.old)) }
    ensures read { (begin : ℕ) (second : Bool) (active : ℕ) (bodies : List (ℕ × ℕ)) (bytes : List ℕ)
        → MayTurn (B.state disk.old) begin to.slots second to.head active to.generation is_open bodies bytes
        → IfSome (B.state disk.new).content
        (SaysOldOrNew begin to.slots active bodies to.generation (F.rest next.old)) }
    ensures turned { OnOk result ((begin : ℕ) (second : Bool) (active : ℕ) (bodies : List (ℕ × ℕ))
        (bytes : List ℕ)
        → MayTurn (B.state disk.old) begin to.slots second to.head active to.generation is_open bodies bytes
        → IfSome (B.state disk.new).content
        (IsTurned begin to.slots second to.generation (F.rest next.old))) }
    ensures used { IfOk result (λ done. done.used ≡ length (F.rest next.old)) }
    ensures last { IfOk result (λ done.
        done.last ≡ body_before (F.rest next.old) (length (F.rest next.old))) }
    ensures durable { OnOk result (Only (B.state disk.new).content (B.state disk.new).images) }
    ensures changes { ChangesAt to.head (32 * (to.slots + 1)) (B.state disk.old) (B.state disk.new) }
    ensures cause { HasDiskCause (B.state disk.old).faults (B.state disk.new).faults result }
{
    let gate = to.head + 31;
    close(disk, gate, is_open)?;
    let filled = write_area(disk, to, next)?;
    store_at(disk, gate, &[OPEN])?;
    Ok(filled)
}
