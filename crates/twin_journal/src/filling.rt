// How an area is filled with a list of bodies.
ghost use Rattle.std.specs.Prelude.{◌≡◌, ◌<◌, ◌≤◌, ◌+◌, ◌*◌, ◌^◌, ℕ, List, [], length, drop, min, Some, IfSome, IfOk, OnOk};
ghost use Rattle.zk_port.specs.Counts.{HasDiskCause};
ghost use Rattle.zk_port.specs.Images.{HasDiskRoom};
ghost use Rattle.lease_journal.specs.Journals.{body_before};
ghost use Rattle.zk_model.specs.declared.limits.TheConstants.{MAX_SLOTS};
ghost use Rattle.lease_journal.specs.Keeps.{ChangesAt};
ghost use Rattle.twin_journal.specs.Filling.{IsClosedSlot, IsFilled, IsOpenSlot, IsSlotFor, last_after, open_slot, slot_bytes};

use crate::OPEN;
use crate::bodies::Bodies;
use zk_port::{Disk, Failed};

/// How many bodies were written, and the last of them, or zeros.
#[derive(Clone, Copy)]
pub struct Filled {
    pub used: u64,
    pub last: (u64, u64),
}

/// The bytes of an open slot with this body.
fn open_slot(a: u64, b: u64) -> [u8; 32]
    ensures slot { IsOpenSlot (a, b) result }
    ensures exact { result ≡ open_slot (a, b) }
{
    let mut slot = [0; 32];
    slot[..8].copy_from_slice(&a.to_le_bytes());
    slot[8..16].copy_from_slice(&b.to_le_bytes());
    slot[31] = OPEN;
    slot
}

/// The bytes of a slot that is not open.
fn closed_slot() -> [u8; 32]
    ensures slot { IsClosedSlot result }
    ensures exact { result ≡ slot_bytes [] }
{
    [0; 32]
}

/// The bytes of a slot for the next body, which it counts, or of one that is not open where there is none.
fn next_slot<F: Bodies>(next: &mut F, filled: &mut Filled) -> [u8; 32]
    requires { filled.old.used ≤ MAX_SLOTS }
    ensures slot { IsSlotFor (F.rest next.old) result }
    ensures exact { result ≡ slot_bytes (F.rest next.old) }
    ensures rest { F.rest next.new ≡ drop 1 (F.rest next.old) }
    ensures used { filled.new.used ≡ filled.old.used + min 1 (length (F.rest next.old)) }
    ensures last { filled.new.last ≡ last_after filled.old.last (F.rest next.old) }
{
    match next.next() {
        Some((a, b)) => {
            filled.used += 1;
            filled.last = (a, b);
            open_slot(a, b)
        }
        None => closed_slot(),
    }
}

/// Writes these bodies into the slots of an area, one after another, and zeros into the slots after them. It does not
/// sync.
pub fn write_slots<B: Disk, F: Bodies>(
    disk: &mut B,
    at: u64,
    slots: u64,
    next: &mut F,
) -> Result<Filled, Failed>
    requires place { at ≤ 2 ^ 40 }
    requires bounded { slots ≤ MAX_SLOTS + 1 }
    requires fits { HasDiskRoom (at + 32 * slots) (B.state disk.old).room }
    requires few { length (F.rest next.old) ≤ slots }
    ensures filled { OnOk result ((bytes : List ℕ) → (B.state disk.old).content ≡ Some bytes
        → at ≤ length bytes → IfSome (B.state disk.new).content (IsFilled at slots (F.rest next.old))) }
    ensures used { IfOk result (λ done. done.used ≡ length (F.rest next.old)) }
    ensures last { IfOk result (λ done.
        done.last ≡ body_before (F.rest next.old) (length (F.rest next.old))) }
    ensures changes { ChangesAt at (32 * slots) (B.state disk.old) (B.state disk.new) }
    ensures cause { HasDiskCause (B.state disk.old).faults (B.state disk.new).faults result }
{
    let mut filled = Filled {
        used: 0,
        last: (0, 0),
    };
    for slot in 0..slots {
        let bytes = next_slot(next, &mut filled);
        disk.write_at(at + 32 * slot, &bytes)?;
    }
    Ok(filled)
}
