// How a journal of two areas comes to count in place of one of one area.
ghost use Rattle.std.specs.Prelude.{◌≡◌, ◌≤◌, ◌+◌, ◌^◌, ℕ, List, length, true, IfSome, IfOk, OnOk};
ghost use Rattle.zk_port.specs.Counts.{HasDiskCause};
ghost use Rattle.zk_port.specs.Disks.{LeavesOnly};
ghost use Rattle.zk_port.specs.Images.{HasDiskRoom, Only};
ghost use Rattle.lease_journal.specs.Journals.{AreSound};
ghost use Rattle.journal_migration.specs.Migrations.{SaysEither, SaysMoved};
ghost use Rattle.lease_journal.specs.Twins.{are_twin_slots, twin_length};
ghost use Rattle.twin_journal.specs.Laying.{HasAllBytes};
ghost use Rattle.journal_migration.specs.Migrating.{EndsAt};

use lease_journal::storing::store_at;
use twin_journal::{Bodies, NewTwin, lay};
use zk_port::{Disk, Failed};

/// The place in the header of the byte that says whether the journal was migrated.
const GATE: u64 = 15;

/// Its value where the journal was migrated.
const OPEN: u8 = 0x5A;

/// Writes a journal of two areas with these bodies behind the journal of one area that ends where it begins, piece by
/// piece, and syncs; then opens the gate of the migration, and syncs. It says how many bodies there are.
pub fn move_behind<B: Disk, F: Bodies>(
    disk: &mut B,
    twin: NewTwin,
    next: &mut F,
) -> Result<u64, Failed>
    requires place { twin.begin ≤ 2 ^ 36 }
    requires behind { 64 ≤ twin.begin }
    requires slots { are_twin_slots twin.name.kind twin.name.total twin.slots ≡ true }
    requires fits { HasDiskRoom (twin.begin + twin_length twin.slots) (B.state disk.old).room }
    requires few { length (F.rest next.old) ≤ twin.slots }
    requires sound { AreSound twin.name.kind twin.name.total (F.rest next.old) }
    ensures any_moment { (old_slots : ℕ) (bodies : List (ℕ × ℕ)) (bytes : List ℕ)
        → EndsAt twin.name.kind twin.name.id twin.name.total twin.begin old_slots bodies bytes
        (B.state disk.old)
        → ((image : List ℕ) → (B.state disk.old).images image → image ≡ bytes)
        → LeavesOnly (B.state disk.old) (B.state disk.new) (SaysEither twin.name.kind twin.name.id
        twin.name.total old_slots bodies twin.slots (F.rest next.old)) }
    ensures read { (old_slots : ℕ) (bodies : List (ℕ × ℕ)) (bytes : List ℕ)
        → EndsAt twin.name.kind twin.name.id twin.name.total twin.begin old_slots bodies bytes
        (B.state disk.old)
        → IfSome (B.state disk.new).content (SaysEither twin.name.kind twin.name.id
        twin.name.total old_slots bodies twin.slots (F.rest next.old)) }
    ensures moved { OnOk result ((old_slots : ℕ) (bodies : List (ℕ × ℕ)) (bytes : List ℕ)
        → EndsAt twin.name.kind twin.name.id twin.name.total twin.begin old_slots bodies bytes
        (B.state disk.old)
        → IfSome (B.state disk.new).content (SaysMoved twin.name.kind twin.name.id
        twin.name.total old_slots twin.slots (F.rest next.old))) }
    ensures bytes { OnOk result (IfSome (B.state disk.new).content (HasAllBytes twin.name.kind twin.name.id
        twin.name.total twin.begin twin.slots (F.rest next.old))) }
    ensures used { IfOk result (λ used. used ≡ length (F.rest next.old)) }
    ensures durable { OnOk result (Only (B.state disk.new).content (B.state disk.new).images) }
    ensures chosen { (B.state disk.new).chosen ≡ (B.state disk.old).chosen }
    ensures room { (B.state disk.new).room ≡ (B.state disk.old).room }
    ensures cause { HasDiskCause (B.state disk.old).faults (B.state disk.new).faults result }
{
    let used = lay(disk, twin, next)?;
    store_at(disk, GATE, &[OPEN])?;
    Ok(used)
}
