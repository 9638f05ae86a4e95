// How a journal of one area is read.
ghost use Rattle.std.specs.Prelude.{◌≡◌, ℕ, List, Some, IfOk, IfErr, OnOk};
ghost use Rattle.zk_port.specs.Disks.{Stays};
ghost use Rattle.zk_port.specs.Images.{Only};
ghost use Rattle.lease_journal.specs.Causes.{HasStartCause, OneAreaCause};
ghost use Rattle.lease_journal.specs.OneAreas.{FindsOneArea, IsBounded};

use crate::area::{Scan, read_slots};
use crate::fault::StartFault;
use crate::header::{FirstHeader, JournalName, read_header};
use zk_model::JournalKind;
use zk_port::{Disk, Failed};

/// Where the slots begin.
const SLOTS_AT: u64 = 64;

/// What stands in a file of a journal of one area.
#[derive(Clone, Copy, Debug, PartialEq, Eq)]
pub enum OneArea {
    /// It was migrated: what counts stands behind it.
    Moved,
    /// It counts: how many slots it has and are in use, and the body in the last of these, or zeros.
    Here {
        slots: u64,
        used: u64,
        last: (u64, u64),
    },
}

/// Reads a journal of one area: syncs, and reads the header, and the slots up to the first that is not open. Of one that
/// was migrated no slot is read.
///
/// # Errors
///
/// The first of these that applies: `Device`, `Short` of the header, `BadHeader`, where the gate of the migration is not
/// judged, `Short` of the slots, `BadBody`.
pub fn read_one_area<B: Disk>(
    disk: &mut B,
    kind: JournalKind,
    id: &[u8; 32],
    total: u64,
) -> Result<OneArea, StartFault>
    ensures found { IfOk result (λ found. (bytes : List ℕ) → (B.state disk.old).content ≡ Some bytes
        → FindsOneArea kind id.now total bytes found) }
    ensures bounded { IfOk result (IsBounded kind total) }
    ensures durable { OnOk result (Only (B.state disk.new).content (B.state disk.new).images) }
    ensures cause { IfErr result (λ e. (bytes : List ℕ) → (B.state disk.old).content ≡ Some bytes
        → OneAreaCause kind id.now total bytes e) }
    ensures stays { Stays (B.state disk.old) (B.state disk.new) }
    ensures count { HasStartCause (B.state disk.old).faults (B.state disk.new).faults result }
{
    if let Err(Failed) = disk.sync() {
        return Err(StartFault::Device);
    }
    let name = JournalName {
        kind,
        id: *id,
        total,
    };
    let FirstHeader { slots, is_moved } = match read_header(disk, name) {
        Ok(header) => header,
        Err(fault) => return Err(fault),
    };
    if is_moved {
        return Ok(OneArea::Moved);
    }
    let Scan { used, last, bad } = match read_slots(disk, SLOTS_AT, kind, total, slots) {
        Ok(scan) => scan,
        Err(fault) => return Err(fault),
    };
    if let Some(slot) = bad {
        return Err(StartFault::BadBody { slot });
    }
    Ok(OneArea::Here { slots, used, last })
}
