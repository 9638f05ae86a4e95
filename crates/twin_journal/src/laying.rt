// How a new journal of two areas is written into a file.
ghost use Rattle.std.specs.Prelude.{◌≡◌, ◌≤◌, ◌+◌, ◌^◌, length, true, IfSome, IfOk, OnOk};
ghost use Rattle.zk_port.specs.Counts.{HasDiskCause};
ghost use Rattle.zk_port.specs.Images.{HasDiskRoom, Only};
ghost use Rattle.lease_journal.specs.Twins.{are_twin_slots, twin_length};
ghost use Rattle.lease_journal.specs.Keeps.{ChangesAt};
ghost use Rattle.twin_journal.specs.Laying.{HasAllBytes, HasFirstBytes, IsLaid};

use crate::bodies::{Bodies, OneBody};
use crate::filling::write_slots;
use crate::first_head;
use crate::header::header_of;
use crate::places::head_at;
use lease_journal::JournalName;
use zk_port::{Disk, Failed};

/// A journal that is to be written: its name, where it begins, and how many slots an area has.
#[derive(Clone, Copy)]
pub struct NewTwin {
    pub name: JournalName,
    pub begin: u64,
    pub slots: u64,
}

/// Writes the header of a journal that begins at this place, and the head of its first area, which is open. It does not
/// sync.
fn write_first_bytes<B: Disk>(disk: &mut B, twin: NewTwin) -> Result<(), Failed>
    requires place { twin.begin ≤ 2 ^ 36 }
    requires fits { HasDiskRoom (twin.begin + 96) (B.state disk.old).room }
    ensures written { OnOk result
        (IfSome (B.state disk.new).content
        (HasFirstBytes twin.name.kind twin.name.id twin.name.total twin.begin twin.slots)) }
    ensures changes { ChangesAt twin.begin 96 (B.state disk.old) (B.state disk.new) }
    ensures cause { HasDiskCause (B.state disk.old).faults (B.state disk.new).faults result }
{
    disk.write_at(twin.begin, &header_of(twin.name, twin.slots))?;
    disk.write_at(twin.begin + 64, &first_head())?;
    Ok(())
}

/// Writes a journal that begins at this place, with these bodies in its first area in generation 1, piece by piece, and
/// syncs. It says how many bodies there are.
///
/// # Errors
///
/// Where a call of the disk failed.
pub fn lay<B: Disk, F: Bodies>(disk: &mut B, twin: NewTwin, next: &mut F) -> Result<u64, Failed>
    requires place { twin.begin ≤ 2 ^ 36 }
    requires slots { are_twin_slots twin.name.kind twin.name.total twin.slots ≡ true }
    requires fits { HasDiskRoom (twin.begin + twin_length twin.slots) (B.state disk.old).room }
    requires few { length (F.rest next.old) ≤ twin.slots }
    ensures laid { OnOk result
        (IfSome (B.state disk.new).content (IsLaid twin.name.kind twin.name.id twin.name.total
        twin.begin twin.slots (F.rest next.old))) }
    ensures bytes { OnOk result
        (IfSome (B.state disk.new).content (HasAllBytes twin.name.kind twin.name.id twin.name.total
        twin.begin twin.slots (F.rest next.old))) }
    ensures used { IfOk result (λ used. used ≡ length (F.rest next.old)) }
    ensures durable { OnOk result (Only (B.state disk.new).content (B.state disk.new).images) }
    ensures changes { ChangesAt twin.begin (twin_length twin.slots) (B.state disk.old) (B.state disk.new) }
    ensures cause { HasDiskCause (B.state disk.old).faults (B.state disk.new).faults result }
{
    write_first_bytes(disk, twin)?;
    let filled = write_slots(disk, twin.begin + 96, twin.slots, next)?;
    let second = head_at(twin.begin, twin.slots, true);
    write_slots(disk, second, twin.slots + 1, &mut OneBody::new(None))?;
    disk.sync()?;
    Ok(filled.used)
}
