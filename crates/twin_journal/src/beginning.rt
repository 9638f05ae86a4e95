// Where in its file a journal of two areas begins.
ghost use Rattle.std.specs.Prelude.{◌≡◌, ◌≤◌, ◌^◌, ℕ, List, Some, true, IfOk, IfErr};
ghost use Rattle.zk_port.specs.Disks.{Stays};
ghost use Rattle.lease_journal.specs.Twins.{HasMovedHeader, is_migrated, twin_begin};
ghost use Rattle.lease_journal.specs.Causes.{HasStartCause};
ghost use Rattle.lease_journal.specs.declared.fault.StartFault.TheVariants as start;
ghost use Rattle.twin_journal.specs.Starts.{PlaceCause};

use lease_journal::header::{first_wrong_beside_gate, is_migrated, read_whole};
use lease_journal::storing::word_at;
use lease_journal::{JournalName, StartFault};
use zk_port::Disk;

/// Finds where the journal begins: 0, or where the journal of one area ends in a file that was migrated.
pub fn find_begin<B: Disk>(disk: &mut B, name: JournalName) -> Result<u64, StartFault>
    ensures begin { IfOk result (λ begin. (bytes : List ℕ) → (B.state disk.old).content ≡ Some bytes
        → begin ≡ twin_begin name.kind bytes) }
    ensures moved { IfOk result (λ _. (bytes : List ℕ) → (B.state disk.old).content ≡ Some bytes
        → is_migrated name.kind bytes ≡ true → HasMovedHeader name.kind name.id name.total bytes) }
    ensures low { IfOk result (λ begin. begin ≤ 2 ^ 36) }
    ensures cause { IfErr result (λ e. (bytes : List ℕ) → (B.state disk.old).content ≡ Some bytes
        → PlaceCause name.kind name.id name.total bytes e) }
    ensures unread { IfErr result (λ e. (bad : ℕ) → e ≡ start.BadBody bad → ⊥) }
    ensures stays { Stays (B.state disk.old) (B.state disk.new) }
    ensures count { HasStartCause (B.state disk.old).faults (B.state disk.new).faults result }
{
    let header = match read_whole(disk, 0) {
        Ok(header) => header,
        Err(StartFault::Short { .. }) => return Ok(0),
        Err(fault) => return Err(fault),
    };
    if !is_migrated(&header, name.kind) {
        return Ok(0);
    }
    if let Some(place) = first_wrong_beside_gate(&header, name) {
        return Err(StartFault::BadHeader { place });
    }
    Ok(64 + 32 * word_at(&header, 24))
}
